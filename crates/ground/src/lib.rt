#![tactic(auto)]
// The words that every layer uses. Definitions and laws stand in specs/; here are the type that code and definitions share, what a rule answers,
// and a byte as an index. Where a rule is broken first is an `Option<usize>`: nowhere, or at an offset from the configuration's first byte.
ghost use Rattle.std.specs.Prelude.{◌≡◌, ◌<◌};
ghost use Rattle.ground.specs.Refuse.{none, kept_at, refuse};
ghost use Rattle.ground.specs.Told.{told};

// A refusal's number and place; 0 and 0 where nothing is refused.
// Stays: a number, since the papers name a refusal by one, and none of specs/Refuse, which ends every row of refusals, has 0.
#[derive(Clone, Copy)]
pub struct Refusal {
    pub number: u8,
    pub place: usize,
}

// A byte as an index. An array of 256 has a place for each.
pub fn index_of(x: u8) -> usize
    ensures { (result ≡ x) × (result < 256) }
{
    x as usize
}

// A rule by its number and the first place where it is broken: the refusal, if there is such a place. 0 is no rule's number, and refuses nothing.
pub fn refuse_at(number: u8, broken: Option<usize>) -> Result<(), Refusal>
    ensures { result ≡ told (refuse number broken none) tt }
{
    match broken {
        Some(place) if number != 0 => Err(Refusal { number, place }),
        _ => Ok(()),
    }
}

// A rule with one place: the refusal there, unless it is kept.
pub fn refuse_unless(kept: bool, number: u8, place: usize) -> Result<(), Refusal>
    ensures { result ≡ told (refuse number (kept_at kept place) none) tt }
{
    refuse_at(number, if kept { None } else { Some(place) })
}

#![tactic(auto)]
// The stretch (document 02, No. 11): "For a side and an ID it also gives back that entity's own descriptor bytes, a stretch of one of the two
// configurations that the caller lends." What it promises: for every side, every ID and every two configurations whatever, exactly what
// specs/Stretch.antt says. It takes no state, and reads the configuration of the side alone.
ghost use Rattle.std.specs.Prelude.{◌≡◌};
ghost use Rattle.extent.specs.Stretch.{lent_on, entity_place, located_in, refusal_of, bytes_at};

use entities::Run;
use ground::Refusal;
use sides::Side;

// Where the entity of an ID stands.
fn entity_place(run: Run, id: u8) -> Option<usize>
    ensures { result ≡ entity_place run id }
{
    let n = entities::count(run);
    for node in &run.nodes[..n] {
        if node.id == id {
            return Some(node.place);
        }
    }
    None
}

// Where the descriptor of the entity of an ID stands in a configuration; or the configuration's refusal, or 64.
fn locate(config: &[u8], id: u8) -> Result<usize, Refusal>
    ensures { result ≡ located_in config.now id }
{
    let found = topology::judge(config)?;
    match entity_place(found.run, id) {
        None => Err(Refusal {
            number: 64,
            place: 0,
        }),
        Some(place) => Ok(place),
    }
}

fn refusal_of(located: Result<usize, Refusal>) -> Refusal
    ensures { result ≡ refusal_of located }
{
    match located {
        Ok(_) => Refusal {
            number: 0,
            place: 0,
        },
        Err(refusal) => refusal,
    }
}

// The refusal of a stretch: 0 and 0, the reader's number and place, or 64.
// Stays: a Refusal that may refuse nothing, since the clause names refusal_of, and StretchShown speaks of it.
pub fn stretch_refusal(side: Side, id: u8, left: &[u8], right: &[u8]) -> Refusal
    ensures { result ≡ refusal_of (located_in (lent_on side left.now right.now) id) }
{
    match side {
        Side::Left => refusal_of(locate(left, id)),
        Side::Right => refusal_of(locate(right, id)),
    }
}

// The descriptor of the entity of an ID; empty where it is refused.
fn descriptor_of(config: &[u8], id: u8) -> &[u8]
    ensures { result.now ≡ bytes_at config.now (located_in config.now id) }
{
    match locate(config, id) {
        Err(_) => &config[..0],
        Ok(place) => scan::descriptor_at(config, place),
    }
}

// An entity's own descriptor bytes: a part of the left or the right lent configuration, chosen by side; empty where it is refused. Here alone what is
// handed back is a part of the bytes that the caller lends (demand 1's one exception).
pub fn stretch<'a>(side: Side, id: u8, left: &'a [u8], right: &'a [u8]) -> &'a [u8]
    ensures { result.now ≡ bytes_at (lent_on side left.now right.now) (located_in (lent_on side left.now right.now) id) }
{
    match side {
        Side::Left => descriptor_of(left, id),
        Side::Right => descriptor_of(right, id),
    }
}

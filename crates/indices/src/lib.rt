#![tactic(auto)]
// A run that stands in no configuration, judged by the reader's own rules (document 02, No. 9: "as the reader would give them, .. the place being
// the entity's index from 0 in the list"). What it promises to the writer: of descriptors laid one behind another, the first of 17 and 10 to 13
// that applies, at the index of its entity; 0 and 0 where none does.
ghost use Rattle.std.specs.Prelude.{◌≡◌};
ghost use Rattle.ground.specs.Refuse.{none};
ghost use Rattle.indices.specs.Indices.{index_at, indexed_then};

use entities::Run;
use ground::Refusal;

// The index of the entity of a run that stands at a place.
// Stays: 0 where none stands there, since index_at of specs/Indices is.
fn index_at(run: Run, place: usize) -> usize
    ensures { result ≡ index_at run place }
{
    let n = entities::count(run);
    for i in 0..n {
        if run.nodes[i].place == place {
            return i;
        }
    }
    0
}

// The first of 17 and 10 to 13 that descriptors, one behind another, are refused by, at the index of its entity.
// Stays: a Refusal that may refuse nothing, since the clause names indexed_then, which the writer's verdict is made of.
pub fn judge(s: &[u8]) -> Refusal
    ensures { result ≡ indexed_then s.now none }
{
    let walk = entities::read_run(s, 0);
    let run = walk.run;
    if let Some(place) = walk.unlaid {
        return Refusal {
            number: 17,
            place: index_at(run, place),
        };
    }
    match connections::judge(s, run) {
        Ok(_) => Refusal {
            number: 0,
            place: 0,
        },
        Err(refusal) => Refusal {
            number: refusal.number,
            place: index_at(run, refusal.place),
        },
    }
}

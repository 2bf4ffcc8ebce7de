#![tactic(auto)]
// IDs, rule 10 (document 01): an ID is its entity's own, and not zero. What this crate promises to the layer above: its function answers, for
// every run whatever, as the definitions of specs/ say. It looks at the first entities of a run, as many as the run counts and at most 32.
ghost use Rattle.std.specs.Prelude.{◌≡◌};
ghost use Rattle.ids.specs.Breach.{breach10};

use entities::Run;
use ground::index_of;

// The first entity that breaks rule 10.
pub fn check_ids(run: Run) -> Option<usize>
    ensures { result ≡ breach10 run }
{
    let n = entities::count(run);
    let mut borne = [false; 256];
    for node in &run.nodes[..n] {
        let id = index_of(node.id);
        if id == 0 || borne[id] {
            return Some(node.place);
        }
        borne[id] = true;
    }
    None
}

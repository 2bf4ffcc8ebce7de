#![tactic(auto)]
// Ranks, rule 12 (document 01): no upstream chain of sources is longer than 32 steps. An order finds out: passes go over the run, and an
// entity joins the order once all its sources are in it. Whoever never joins has an endless chain above it. Order of the bytes
// carries no meaning: a source that stands after its user costs another pass, nothing else. What this crate promises to the
// layer above: each public function answers, for every configuration and every run whatever, as the definitions of specs/ say.
ghost use Rattle.std.specs.Prelude.{◌≡◌};
ghost use Rattle.std.specs.List.{list_all};
ghost use Rattle.ranks.specs.Order.{marked, fresh, ordered};
ghost use Rattle.ranks.specs.Breach.{borne_in, breach12};

use entities::{Node, Run};
use ground::index_of;

// Whether all these IDs are marked.
fn all_marked(marks: &[bool; 256], ids: &[u8]) -> bool
    ensures { result ≡ list_all (marked marks.now) ids.now }
{
    ids.iter().all(|id| marks[index_of(*id)])
}

// Whether an entity may join: its ID is not borne in the order yet, and all its source IDs are.
#[tactic(auto, using(crate::proofs::Tests::borne_already, crate::proofs::Tests::not_yet))]
fn may_join(marks: &[bool; 256], config: &[u8], node: Node) -> bool
    ensures { result ≡ fresh marks.now config.now node }
{
    !marks[index_of(node.id)] && all_marked(marks, entities::sources(config, node))
}

// The entities of a run in an order in which each source comes before its user, and how many there are: the others have an endless
// chain above them. A pass that adds nothing is the last.
pub fn order_of(config: &[u8], run: Run) -> Run
    ensures { result ≡ ordered config.now run }
{
    let n = entities::count(run);
    let spare = entities::blank();
    let mut nodes = [spare; 32];
    let mut marks = [false; 256];
    let mut count: usize = 0;
    while count < n {
        let before = count;
        for node in &run.nodes[..n] {
            if may_join(&marks, config, *node) {
                marks[index_of(node.id)] = true;
                // Stays: filled by a count, which with the array is the run that ordered says.
                nodes[count] = *node;
                count += 1;
            }
        }
        if count == before {
            return Run { count, nodes };
        }
    }
    Run { count, nodes }
}

// Which IDs are borne in a run.
fn borne(run: Run) -> [bool; 256]
    ensures { result ≡ borne_in run }
{
    let n = entities::count(run);
    let mut marks = [false; 256];
    for node in &run.nodes[..n] {
        marks[index_of(node.id)] = true;
    }
    marks
}

// The first entity of a run that an order of it leaves out: the place where rule 12 is broken.
pub fn check_ranks(run: Run, order: Run) -> Option<usize>
    ensures { result ≡ breach12 run order }
{
    let n = entities::count(run);
    let marks = borne(order);
    for node in &run.nodes[..n] {
        if !marks[index_of(node.id)] {
            return Some(node.place);
        }
    }
    None
}

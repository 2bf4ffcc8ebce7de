#![tactic(auto)]
// The clocks and the named clusters of the 3.0 edition (document 02, No. 12): "A Terminal's clock ID names a Clock Source, which is no source for a pin;
// rule 11 covers both"; refusal 52 "at the first entity whose cluster ID is unknown". What this crate promises to the layer above: its public
// functions answer, for every configuration, buffer and run whatever, as specs/ says.
ghost use Rattle.std.specs.Prelude.{◌≡◌, false, get_or};
ghost use Rattle.entities.specs.Run.{descriptor_of};
ghost use Rattle.edition3.specs.Third.{said_by};
ghost use Rattle.links3.specs.Links.{ClockMarks, wrong_clock_by, breach_clock, lesser, breach11_third, unknown_by, breach52};

use entities::{Node, Run};
use ground::index_of;

// The kind of a Clock Source on the sheet.
const CLOCK_SOURCE: u8 = 0x0B;

// By ID: whether a Clock Source of the run bears it.
fn clocks(run: Run) -> [bool; 256]
    ensures { ClockMarks run result }
{
    let n = entities::count(run);
    let mut marks = [false; 256];
    for node in &run.nodes[..n] {
        if node.kind == CLOCK_SOURCE {
            marks[index_of(node.id)] = true;
        }
    }
    marks
}

// Whether an entity is a Terminal whose clock ID is no Clock Source's.
fn wrong_clock(config: &[u8], node: Node, marks: &[bool; 256]) -> bool
    ensures { result ≡ wrong_clock_by (λ x. get_or marks.now x false) (said_by (descriptor_of config.now node)) }
{
    let said = run3::facts_at(config, node.place);
    if !said.clocked {
        return false;
    }
    !marks[index_of(said.clock)]
}

// The first Terminal whose clock ID is no Clock Source's.
fn check_clocks(config: &[u8], run: Run) -> Option<usize>
    ensures { result ≡ breach_clock config.now run }
{
    let n = entities::count(run);
    let marks = clocks(run);
    for node in &run.nodes[..n] {
        if wrong_clock(config, *node, &marks) {
            return Some(node.place);
        }
    }
    None
}

// The lesser of two places, of which either may be nowhere.
#[tactic(auto, unfolding(crate::specs::Links::lesser))]
fn lesser_place(a: Option<usize>, b: Option<usize>) -> Option<usize>
    ensures { result ≡ lesser a b }
{
    match (a, b) {
        (None, _) => b,
        (Some(_), None) => a,
        (Some(p), Some(q)) => Some(p.min(q)),
    }
}

// The first entity that breaks rule 11: by a source, as in every edition, or by its clock.
pub fn check_sources(config: &[u8], run: Run) -> Option<usize>
    ensures { result ≡ breach11_third config.now run }
{
    let by_source = sources::check_sources(config, run);
    let by_clock = check_clocks(config, run);
    lesser_place(by_source, by_clock)
}

// Whether an entity names a cluster by an ID that no descriptor of the buffer bears.
fn is_unknown(config: &[u8], clusters: &[u8], node: Node) -> bool
    ensures { result ≡ unknown_by clusters.now (said_by (descriptor_of config.now node)) }
{
    let said = run3::facts_at(config, node.place);
    if !said.declares {
        return false;
    }
    let found = buffer::find(clusters, said.cluster);
    match found {
        Some(_) => false,
        None => true,
    }
}

// The first entity whose cluster ID is unknown: refusal 52.
pub fn check_names(config: &[u8], clusters: &[u8], run: Run) -> Option<usize>
    ensures { result ≡ breach52 config.now clusters.now run }
{
    let n = entities::count(run);
    for node in &run.nodes[..n] {
        if is_unknown(config, clusters, *node) {
            return Some(node.place);
        }
    }
    None
}

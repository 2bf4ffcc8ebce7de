#![tactic(auto)]
// The run of entities of the 3.0 edition: nodes and runs of crate entities, which know no edition, read by its layouts. What it promises to the layer
// above: for every slice and every place, the descriptors that stand from there on as a run, the first of them that has none of the
// layouts, and what the layout of one says.
ghost use Rattle.std.specs.Prelude.{◌+◌, ◌<◌, ◌^◌, ◌≡◌, [], length};
ghost use Rattle.ground.specs.Lists.{part};
ghost use Rattle.scan.specs.Cutting.{end_at, rest};
ghost use Rattle.scan.specs.Search.{searched};
ghost use Rattle.layout3.specs.Layout.{entity_of, is_unknown};
ghost use Rattle.edition3.specs.Third.{said_by, third};
ghost use Rattle.entities.specs.Run.{node_of, run_in};

use entities::{MOST_ENTITIES, Node, Run};
use layout3::{Entity, Facts};
use scan::{byte_at, descriptors_from};

// What the layout of the descriptor at a place says.
pub fn facts_at(config: &[u8], at: usize) -> Facts
    ensures { result ≡ said_by (part config.now at (end_at config.now at)) }
{
    layout3::facts_of(layout3::read(scan::descriptor_at(config, at)))
}

// The descriptor d at a place. What a node holds does not hang on the cluster descriptors (`run-any`), so none are given: `third []`.
fn node_of(d: &[u8], place: usize) -> Node
    requires { place + length d.now < 2 ^ 64 }
    ensures { result ≡ node_of (third []) place d.now }
{
    let said = layout3::facts_of(layout3::read(d));
    Node {
        place,
        first: place + said.first as usize,
        pins: said.pins,
        id: byte_at(d, 3),
        kind: said.kind,
        feeds: said.feeds,
    }
}

// The descriptors that stand one after another from a place on, as entities: the same whatever the cluster descriptors (`run-any`).
pub fn read_run(s: &[u8], from: usize) -> Run
    ensures { result ≡ run_in (third []) from (rest s.now from) }
{
    let spare = entities::blank();
    let mut nodes = [spare; 32];
    let mut count: usize = 0;
    for (at, d) in descriptors_from(s, from) {
        if count < MOST_ENTITIES {
            nodes[count] = node_of(d, at);
        }
        count += 1;
    }
    Run { count, nodes }
}

// Whether a descriptor has none of the layouts.
#[tactic(auto, unfolding(layout3::specs::Layout::is_unknown))]
fn is_wrong(d: &[u8]) -> bool
    ensures { result ≡ is_unknown (entity_of d.now) }
{
    matches!(layout3::read(d), Entity::Unknown)
}

// The first descriptor from a place on that has none of the layouts.
pub fn wrong_layout(s: &[u8], from: usize) -> Option<usize>
    ensures { result ≡ searched (λ b d. is_unknown (entity_of d)) s.now from }
{
    scan::descriptors_from(s, from)
        .find(|(_, d)| is_wrong(d))
        .map(|(at, _)| at)
}

#![tactic(auto)]
// The run of entities by value. What it promises to the layer above: how many descriptors stand one after another, and of the first 32
// of them where each stands, the ID that it bears, its kind, whether it may be a source, and where its own source IDs stand in the
// configuration. A node knows no edition; the kind's own numbers are read from its descriptor where they are needed.
ghost use Rattle.std.specs.Prelude.{◌+◌, ◌<◌, ◌^◌, ◌≡◌, length};
ghost use Rattle.layout.specs.Layout.{entity_of};
ghost use Rattle.edition.specs.Audio.{audio};
ghost use Rattle.entities.specs.Run.{blank_node, node_of, held, sources_of, earlier, unlaid_at, walk_of};

use layout::Entity;
use scan::byte_at;

// The most entities that a run may have.
pub const MOST_ENTITIES: usize = 32;

// An entity: its place, the place of its first source ID and how many there are, one behind another; its own ID; the number of
// its kind on the sheet; whether it has an output, so that it may be a source.
#[derive(Clone, Copy)]
pub struct Node {
    pub place: usize,
    pub first: usize,
    pub pins: u8,
    pub id: u8,
    pub kind: u8,
    pub feeds: bool,
}

// How many descriptors a run has, and the first 32 of them, the spare places blank.
// Stays: the count beside the array, since run_in counts the descriptors that have no place in it too.
#[derive(Clone, Copy)]
pub struct Run {
    pub count: usize,
    pub nodes: [Node; 32],
}

// A run, and the place of its first descriptor that has none of the layouts.
#[derive(Clone, Copy)]
pub struct Walk {
    pub run: Run,
    pub unlaid: Option<usize>,
}

// A spare place.
#[tactic(auto, unfolding(crate::specs::Run::blank_node))]
pub fn blank() -> Node
    ensures { result ≡ blank_node }
{
    Node {
        place: 0,
        first: 0,
        pins: 0,
        id: 0,
        kind: 0,
        feeds: false,
    }
}

// How many entities of a run are looked at.
pub fn count(run: Run) -> usize
    ensures { result ≡ held run }
{
    run.count.min(MOST_ENTITIES)
}

// The source IDs of an entity, in the order of its pins: a part of the configuration.
pub fn sources(config: &[u8], node: Node) -> &[u8]
    ensures { result.now ≡ sources_of config.now node }
{
    let behind = &config[node.first.min(config.len())..];
    &behind[..behind.len().min(node.pins as usize)]
}

// The descriptor d at a place, whose layout was read as an entity.
fn node_of(d: &[u8], entity: Entity, place: usize) -> Node
    requires entity_value { entity ≡ entity_of d.now }
    requires d_bound { place + length d.now < 2 ^ 64 }
    ensures { result ≡ node_of audio place d.now }
{
    Node {
        place,
        first: place + kinds::sources_from(entity),
        pins: kinds::pins(entity),
        id: byte_at(d, 3),
        kind: kinds::kind(entity),
        feeds: kinds::feeds(entity),
    }
}

// The place of the first entity so far that has none of the layouts, where an entity stands at the next place.
fn first_unlaid(before: Option<usize>, entity: Entity, at: usize) -> Option<usize>
    ensures { result ≡ earlier before (unlaid_at entity at) }
{
    if let Some(_) = before {
        return before;
    }
    if let Entity::Unknown = entity {
        Some(at)
    } else {
        None
    }
}

// The descriptors that stand one after another from a place on, as entities, and the first of them that has none of the layouts.
pub fn read_run(s: &[u8], from: usize) -> Walk
    ensures { result ≡ walk_of s.now from }
{
    let spare = blank();
    let mut nodes = [spare; 32];
    let mut count: usize = 0;
    let mut unlaid = None;
    for (at, d) in scan::descriptors_from(s, from) {
        let entity = layout::read(d);
        unlaid = first_unlaid(unlaid, entity, at);
        if count < MOST_ENTITIES {
            nodes[count] = node_of(d, entity, at);
        }
        // Stays: counted by hand, since walk_of counts the descriptors past the 32nd too.
        count += 1;
    }
    let run = Run { count, nodes };
    Walk { run, unlaid }
}

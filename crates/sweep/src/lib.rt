#![tactic(auto)]
// What each entity gives out (document 01, "Clusters"), in one sweep along an order of the run. What this crate promises to the layer above:
// each public function answers, for every configuration and every run whatever, as the definitions of specs/ say.
ghost use Rattle.std.specs.Prelude.{◌≡◌};
ghost use Rattle.pins.specs.Same.{numbers_at};
ghost use Rattle.edition.specs.Audio.{named};
ghost use Rattle.sweep.specs.Sweep.{cluster_on, first_by, gives_by, Sweeps, clusters_of};

use entities::{Node, Run};
use ground::index_of;
use layout::{Cluster, Entity};

// What each ID gives out: by ID its channels, its locations and its first name index.
// Stays: three arrays and not one of clusters, since swept says them one by one and pins::same reads one of them.
#[derive(Clone, Copy)]
pub struct Given {
    pub channels: [u8; 256],
    pub locations: [u16; 256],
    pub names: [u8; 256],
}

impl Given {
    // The cluster that an ID gives out.
    fn on(&self, id: u8) -> Cluster
        ensures { result ≡ cluster_on self.now id }
    {
        let id = index_of(id);
        Cluster {
            channels: self.channels[id],
            locations: self.locations[id],
            names: self.names[id],
        }
    }
}

// No channels, and so no locations and no names.
const NO_CLUSTER: Cluster = Cluster {
    channels: 0,
    locations: 0,
    names: 0,
};

// The cluster that enters by pin 1; none where there is no pin.
pub fn first_entering(ids: &[u8], given: &Given) -> Cluster
    ensures { result ≡ first_by (cluster_on given.now) ids.now }
{
    match ids.first() {
        Some(id) => given.on(*id),
        None => NO_CLUSTER,
    }
}

// What a Selector gives out, where this cluster enters by pin 1.
fn selected(ids: &[u8], first: Cluster, names: &[u8; 256]) -> Cluster
    ensures { result ≡ named first (numbers_at names.now ids.now) }
{
    let name = if pins::same(ids, names) {
        first.names
    } else {
        0
    };
    Cluster {
        names: name,
        ..first
    }
}

// What an entity gives out, where these clusters enter by its pins.
fn give_out(config: &[u8], node: Node, given: &Given) -> Cluster
    ensures { result ≡ gives_by config.now node (cluster_on given.now) }
{
    let ids = entities::sources(config, node);
    let first = first_entering(ids, given);
    let entity = layout::read(scan::descriptor_at(config, node.place));
    match entity {
        Entity::Unknown => first,
        Entity::Input { cluster, .. } => cluster,
        Entity::Output { .. } => first,
        Entity::Mixer { cluster, .. } => cluster,
        Entity::Selector { .. } => selected(ids, first, &given.names),
        Entity::Feature { .. } => first,
    }
}

// What each ID gives out, along the run: each entity finds what its sources gave out before it.
pub fn sweep(config: &[u8], run: Run) -> Given
    ensures { Sweeps config.now run result }
{
    let n = entities::count(run);
    let mut given = Given {
        channels: [0; 256],
        locations: [0; 256],
        names: [0; 256],
    };
    for node in &run.nodes[..n] {
        let gives = give_out(config, *node, &given);
        let id = index_of(node.id);
        given.channels[id] = gives.channels;
        given.locations[id] = gives.locations;
        given.names[id] = gives.names;
    }
    given
}

// The cluster of each entity of a run, by its index.
pub fn by_index(run: Run, given: Given) -> [Cluster; 32]
    ensures { result ≡ clusters_of run (cluster_on given) }
{
    let mut clusters = [NO_CLUSTER; 32];
    for (i, node) in run.nodes.iter().enumerate() {
        clusters[i] = given.on(node.id);
    }
    clusters
}

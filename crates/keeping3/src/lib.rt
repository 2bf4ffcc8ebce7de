#![tactic(auto)]
// Rule 13 of the 3.0 edition (document 02, No. 12): whether each entity keeps its kind's rule, where clusters are given out on IDs, each by the ID of a
// cluster descriptor of the buffer. To the layer above: for every configuration, buffer, run and IDs whatever, as specs/ says.
ghost use Rattle.std.specs.Prelude.{◌≡◌, ◌≤◌, ◌&&◌, map, eqb, length};
ghost use Rattle.ground.specs.Pick.{within};
ghost use Rattle.channels.specs.DeclaredChannels.{most_channels};
ghost use Rattle.buffer.specs.Clusters.{channels_of};
ghost use Rattle.buffer.specs.Reading.{cluster_with, same_content};
ghost use Rattle.edition3.specs.Third.{first_of, channels_in, mixer_length, feature_length, alike};
ghost use Rattle.keeping3.specs.Keeping.{cluster_behind, Entering, keeps_by, breach13};
ghost use Rattle.keeping3.specs.Behind.{cluster_on};

use entities::{Node, Run};
use ground::index_of;
use layout3::Entity;
use scan::byte_at;

// The most channels that a cluster may have.
const MOST_CHANNELS: u8 = 16;

// The length of a Mixer with p pins and c channels, where i channels enter in all: N = i·c/8 rounded up.
// Stays: keeping::mixer_length has 10 bytes besides where this has 13; each edition's definition of that name says so.
#[tactic(auto, unfolding(edition3::specs::Third::mixer_length))]
fn mixer_length(p: u8, c: u8, i: usize) -> usize
    requires { i ≤ 65025 }
    ensures { result ≡ mixer_length p c i }
{
    13 + p as usize + (i * c as usize + 7) / 8
}

// The length of a Feature Unit where c channels enter.
// Stays: keeping::feature_length takes the size of a control, which in this edition is 4 and no field.
#[tactic(auto, unfolding(edition3::specs::Third::feature_length))]
fn feature_length(c: u8) -> usize
    ensures { result ≡ feature_length c }
{
    7 + 4 * (c as usize + 1)
}

// Whether c is 1 to 16.
fn few(c: u8) -> bool
    ensures { result ≡ within 1 c most_channels }
{
    (1..=MOST_CHANNELS).contains(&c)
}

// The clusters that stand on entities' IDs: a buffer of cluster descriptors, and by entity ID the ID of one of them, 0 for none.
#[derive(Clone, Copy)]
struct Behind<'a> {
    clusters: &'a [u8],
    given: &'a [u16; 256],
}

// Stays: sweep's first_entering and keeping's channels_in and selector_kept read arrays by ID; here each cluster is looked up in the buffer.
impl Behind<'_> {
    // The cluster that stands on an entity's ID.
    fn on(&self, id: u8) -> &[u8]
        ensures { result.now ≡ cluster_on self.now id }
    {
        buffer::cluster_with(self.clusters, self.given[index_of(id)])
    }

    // How many channels the cluster of an ID has.
    fn channels_with(&self, cluster: u16) -> u8
        ensures { result ≡ channels_of (cluster_with self.now.clusters.now cluster) }
    {
        byte_at(buffer::cluster_with(self.clusters, cluster), 6)
    }

    // How many channels enter by pin 1; none where there is no pin.
    fn first_count(&self, ids: &[u8]) -> u8
        ensures { result ≡ channels_of (first_of (map (cluster_on self.now) ids.now)) }
    {
        let Some(&id) = ids.first() else {
            return 0;
        };
        byte_at(self.on(id), 6)
    }

    // How many channels enter in all.
    fn channels_in(&self, ids: &[u8]) -> usize
        requires { length ids.now ≤ 255 }
        ensures { Entering (map (cluster_on self.now) ids.now) result }
    {
        let mut sum: usize = 0;
        for id in ids {
            sum += index_of(byte_at(self.on(*id), 6));
        }
        sum
    }

    // Whether the clusters of two IDs have the same content.
    fn same_content(&self, a: u8, b: u8) -> bool
        ensures { result ≡ same_content (cluster_on self.now a) (cluster_on self.now b) }
    {
        buffer::same_content(self.on(a), self.on(b))
    }

    // Whether what enters by each pin has the same content as what enters by pin 1.
    fn selector_kept(&self, ids: &[u8]) -> bool
        ensures { result ≡ alike (map (cluster_on self.now) ids.now) }
    {
        ids.iter().all(|id| self.same_content(*id, ids[0]))
    }

    // Whether a Mixer of p pins and this length, which names the cluster of an ID, keeps its rule.
    fn mixer_kept(&self, ids: &[u8], p: u8, cluster: u16, size: usize) -> bool
        requires { length ids.now ≤ 255 }
        ensures { result ≡ (within 1 (channels_of (cluster_with self.now.clusters.now cluster)) most_channels && eqb size (mixer_length p (channels_of (cluster_with self.now.clusters.now cluster)) (channels_in (map (cluster_on self.now) ids.now)))) }
    {
        let c = self.channels_with(cluster);
        if !few(c) {
            return false;
        }
        let i = self.channels_in(ids);
        size == mixer_length(p, c, i)
    }

    // Whether an entity keeps its kind's rule.
    fn kept(&self, config: &[u8], node: Node) -> bool
        ensures { result ≡ keeps_by config.now self.now.clusters.now node (cluster_on self.now) }
    {
        let d = scan::descriptor_at(config, node.place);
        let ids = entities::sources(config, node);
        let entity = layout3::read(d);
        match entity {
            Entity::Unknown => true,
            Entity::Input { cluster, .. } => few(self.channels_with(cluster)),
            Entity::Output { .. } => true,
            Entity::Mixer { pins, cluster } => self.mixer_kept(ids, pins, cluster, d.len()),
            Entity::Selector { .. } => self.selector_kept(ids),
            Entity::Feature { .. } => d.len() == feature_length(self.first_count(ids)),
            Entity::Clock => true,
        }
    }
}

// The first entity that breaks rule 13, where each ID gives out the cluster of such an ID.
pub fn check_clusters(config: &[u8], clusters: &[u8], run: Run, given: [u16; 256]) -> Option<usize>
    ensures { result ≡ breach13 config.now clusters.now run (cluster_behind clusters.now given) }
{
    let n = entities::count(run);
    let behind = Behind {
        clusters,
        given: &given,
    };
    for node in &run.nodes[..n] {
        if !behind.kept(config, *node) {
            return Some(node.place);
        }
    }
    None
}

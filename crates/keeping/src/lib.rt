#![tactic(auto)]
// Whether one entity keeps its kind's rule (document 01, "Clusters"), where clusters are given out on IDs. To the layer above: the test of
// rule 13, for every configuration, every entity, every counts of channels and every bitmaps whatever. The rules are the edition's.
ghost use Rattle.std.specs.Prelude.{◌≡◌, ◌≤◌, map, length};
ghost use Rattle.edition.specs.Audio.{alike, mixer_length, mixer_kept, feature_length, feature_kept};
ghost use Rattle.sweep.specs.Sweep.{first_by};
ghost use Rattle.keeping.specs.Keeping.{channels_on, content_on, keeps_by, Entering};

use entities::Node;
use ground::index_of;
use layout::{Cluster, Entity};

// How many channels enter in all.
fn channels_in(ids: &[u8], counts: &[u8; 256]) -> usize
    requires { length ids.now ≤ 255 }
    ensures { Entering (map (channels_on counts.now) ids.now) result }
{
    let mut sum: usize = 0;
    for id in ids {
        sum += index_of(pins::number_of(counts, *id));
    }
    sum
}

// The length of a Mixer with p pins and c channels, where i channels enter in all: N = i·c/8 rounded up.
fn mixer_length(p: u8, c: u8, i: usize) -> usize
    requires { i ≤ 65025 }
    ensures { result ≡ mixer_length p c i }
{
    let controls = (i * c as usize + 7) / 8;
    10 + p as usize + controls
}

// The length of a Feature Unit with control size n, where c channels enter.
fn feature_length(c: u8, n: u8) -> usize
    ensures { result ≡ feature_length c n }
{
    7 + (c as usize + 1) * n as usize
}

// How many channels enter by pin 1; none where there is no pin.
fn first_count(ids: &[u8], counts: &[u8; 256]) -> u8
    ensures { result ≡ (first_by (channels_on counts.now) ids.now).channels }
{
    match ids.first() {
        Some(id) => pins::number_of(counts, *id),
        None => 0,
    }
}

// Whether by each pin of a Selector as many channels enter as by pin 1, with the same bitmap.
fn selector_kept(ids: &[u8], counts: &[u8; 256], bitmaps: &[u16; 256]) -> bool
    ensures { result ≡ alike (map (content_on counts.now bitmaps.now) ids.now) }
{
    pins::same(ids, counts) && pins::same(ids, bitmaps)
}

// Whether a Mixer of this length keeps its rule.
fn mixer_kept(ids: &[u8], counts: &[u8; 256], p: u8, cluster: Cluster, size: usize) -> bool
    requires { length ids.now ≤ 255 }
    ensures { result ≡ mixer_kept p cluster size (map (channels_on counts.now) ids.now) }
{
    channels::cluster_kept(cluster)
        && size == mixer_length(p, cluster.channels, channels_in(ids, counts))
}

// Whether a Feature Unit of this length keeps its rule.
fn feature_kept(ids: &[u8], counts: &[u8; 256], n: u8, size: usize) -> bool
    ensures { result ≡ feature_kept n size (map (channels_on counts.now) ids.now) }
{
    size == feature_length(first_count(ids, counts), n)
}

// Whether an entity keeps its kind's rule, where each ID gives out so many channels, with this bitmap.
// Stays: two arrays and not what is given out whole, since the rules look at channels and bitmaps alone, and ask for no name index.
pub fn kept(config: &[u8], node: Node, counts: &[u8; 256], bitmaps: &[u16; 256]) -> bool
    ensures { result ≡ keeps_by config.now node (content_on counts.now bitmaps.now) }
{
    let d = scan::descriptor_at(config, node.place);
    let ids = entities::sources(config, node);
    let entity = layout::read(d);
    match entity {
        Entity::Unknown => true,
        Entity::Input { cluster, .. } => channels::cluster_kept(cluster),
        Entity::Output { .. } => true,
        Entity::Mixer { pins, cluster, .. } => mixer_kept(ids, counts, pins, cluster, d.len()),
        Entity::Selector { .. } => selector_kept(ids, counts, bitmaps),
        Entity::Feature { size, .. } => feature_kept(ids, counts, size, d.len()),
    }
}

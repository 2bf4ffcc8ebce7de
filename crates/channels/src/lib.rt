#![tactic(auto)]
// The rule of a declared cluster (document 01, "Clusters"; source document 000, section 3.7.2.3), one cluster at a time. What this crate
// promises to the layer above: it answers, for every cluster whatever, as the definition of specs/ says.
ghost use Rattle.std.specs.Prelude.{◌≡◌, ◌≤◌, ◌<◌};
ghost use Rattle.channels.specs.DeclaredChannels.{names_kept, cluster_kept};

use layout::Cluster;

// The most channels that a cluster may have.
const MOST_CHANNELS: u8 = 16;

// Bits 12 to 15 of the locations are 0 below this.
const LOCATIONS: u16 = 4096;

// Whether the name index goes with c channels, of which so many have a location: the others bear names, one after another from the index.
#[tactic(auto, unfolding(crate::specs::DeclaredChannels::names_kept))]
fn names_kept(c: u32, ones: u32, index: u32) -> bool
    requires { (c ≤ 16) × (ones ≤ c) × (index < 256) }
    ensures { result ≡ names_kept c ones index }
{
    index == 0 || ones != c && index + c - ones - 1 <= 255
}

// Whether a declared cluster keeps the rule.
#[tactic(auto, unfolding(crate::specs::DeclaredChannels::cluster_kept))]
pub fn cluster_kept(cluster: Cluster) -> bool
    ensures { result ≡ cluster_kept cluster }
{
    let c = cluster.channels as u32;
    let ones = cluster.locations.count_ones();
    (1..=MOST_CHANNELS).contains(&cluster.channels)
        && cluster.locations < LOCATIONS
        && ones <= c
        && names_kept(c, ones, cluster.names as u32)
}

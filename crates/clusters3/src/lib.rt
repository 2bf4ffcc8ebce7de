#![tactic(auto)]
// The clusters of the 3.0 edition as the sheet shows them (document 02, No. 12), by the IDs of cluster descriptors that were given out. What this crate
// promises to the layer above: its public function answers, for every buffer, every run and every IDs whatever, as specs/ says.
ghost use Rattle.std.specs.Prelude.{◌≡◌};
ghost use Rattle.sweep3.specs.Sweep.{id_on};
ghost use Rattle.keeping3.specs.Keeping.{cluster_behind};
ghost use Rattle.clusters3.specs.Shown.{shown_cluster, clusters_by};

use entities::Run;
use ground::index_of;
use layout::Cluster;
use scan::byte_at;

// What is shown of the cluster that stands on an entity's ID.
fn shown_on(clusters: &[u8], given: &[u16; 256], id: u8) -> Cluster
    ensures { result ≡ shown_cluster (cluster_behind clusters.now given.now id) }
{
    let k = buffer::cluster_with(clusters, given[index_of(id)]);
    let bitmap = 0;
    let name = 0;
    Cluster {
        channels: byte_at(k, 6),
        locations: bitmap,
        names: name,
    }
}

// The cluster of each entity of a run, by its index; none at the spare places, for which the buffer is not searched.
pub fn by_index(clusters: &[u8], run: Run, given: [u16; 256]) -> [Cluster; 32]
    ensures { result ≡ clusters_by clusters.now run (id_on given) }
{
    let n = entities::count(run);
    let mut shown = [Cluster {
        channels: 0,
        locations: 0,
        names: 0,
    }; 32];
    for (i, node) in run.nodes[..n].iter().enumerate() {
        shown[i] = shown_on(clusters, &given, node.id);
    }
    shown
}

#![tactic(auto)]
// Clusters, rule 13 (document 01, "Clusters"): whether each entity keeps its kind's rule, where clusters are given out. What this crate promises
// to the layer above: its public function answers, for every configuration, every run and every clusters whatever, as the definitions of
// specs/ say.
ghost use Rattle.std.specs.Prelude.{◌≡◌};
ghost use Rattle.sweep.specs.Sweep.{cluster_on};
ghost use Rattle.clusters.specs.Breach.{breach13};

use entities::Run;
use sweep::Given;

// The first entity that breaks rule 13, where each ID gives out these clusters.
pub fn check_clusters(config: &[u8], run: Run, given: Given) -> Option<usize>
    ensures { result ≡ breach13 config.now run (cluster_on given) }
{
    let n = entities::count(run);
    for node in &run.nodes[..n] {
        if !keeping::kept(config, *node, &given.channels, &given.locations) {
            return Some(node.place);
        }
    }
    None
}

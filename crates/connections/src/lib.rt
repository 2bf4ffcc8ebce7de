#![tactic(auto)]
// The rules 10 to 13 in their order (document 01, "Refusals of a configuration"): how the entities of a run are connected. What this
// crate promises to the layer above: the lowest number of these that a run breaks, with its place; or the cluster on each entity's
// output. Each is computed once, and not before the rules in front of it are kept.
ghost use Rattle.std.specs.Prelude.{◌≡◌};
ghost use Rattle.connections.specs.Judgement.{connected_in};

use entities::Run;
use ground::{Refusal, refuse_at};
use layout::Cluster;

// The cluster of each entity of a run by its index, or the lowest number of the rules 10 to 13 that the run breaks, with its place.
pub fn judge(config: &[u8], run: Run) -> Result<[Cluster; 32], Refusal>
    ensures { result ≡ connected_in config.now run }
{
    refuse_at(10, ids::check_ids(run))?;
    refuse_at(11, sources::check_sources(config, run))?;
    let order = ranks::order_of(config, run);
    refuse_at(12, ranks::check_ranks(run, order))?;
    let given = sweep::sweep(config, order);
    refuse_at(13, clusters::check_clusters(config, run, given))?;
    Ok(sweep::by_index(run, given))
}

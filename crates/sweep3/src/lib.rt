#![tactic(auto)]
// What each entity of the 3.0 edition gives out, in one sweep along an order of the run: by entity ID the ID of a cluster descriptor, 0 for none. What
// this crate promises to the layer above: its public function answers, for every configuration and every run whatever, as specs/ says.
ghost use Rattle.std.specs.Prelude.{◌≡◌, get_or};
ghost use Rattle.sweep3.specs.Sweep.{id_on, gives_id, Sweeps};

use entities::{Node, Run};
use ground::index_of;

// What an entity gives out, where these IDs of clusters enter by its pins.
fn give_out(config: &[u8], node: Node, given: &[u16; 256]) -> u16
    ensures { result ≡ gives_id config.now node (id_on given.now) }
{
    let said = run3::facts_at(config, node.place);
    if said.declares {
        return said.cluster;
    }
    let ids = entities::sources(config, node);
    let Some(&id) = ids.first() else {
        return 0;
    };
    given[index_of(id)]
}

// What each ID gives out, along the run: each entity finds what its sources gave out before it.
pub fn sweep(config: &[u8], run: Run) -> [u16; 256]
    ensures { Sweeps config.now run result }
{
    let n = entities::count(run);
    let mut given = [0u16; 256];
    for node in &run.nodes[..n] {
        given[index_of(node.id)] = give_out(config, *node, &given);
    }
    given
}

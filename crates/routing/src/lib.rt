#![tactic(auto)]
// "Which way does the voice come?" (document 02, No. 8). What it promises to the programs above: for every configuration, every ID and every lent list, the
// routes from the Output Terminal that bears the ID up to the Input Terminals, each exactly once, in the order of pins; how many they are and how many bytes
// were written; or the refusal, the reader's but 16, then 45, 46, 49, with the list as it stood.
ghost use Rattle.std.specs.Prelude.{◌≡◌, length};
ghost use Rattle.routing.specs.Listing.{source_places_of, is_output, listing_in, list_in, listing_of, list_after};

use entities::Run;
use ground::index_of;
use upstream::Listing;

// By ID, where the source IDs of the entity that bears it stand, and how many there are.
// Stays: two arrays, since source_places_of says them one by one, and upstream::list_ways takes them so.
#[derive(Clone, Copy)]
pub struct SourcePlaces {
    pub firsts: [usize; 256],
    pub counts: [u8; 256],
}

fn source_places(run: Run) -> SourcePlaces
    ensures { result ≡ source_places_of run }
{
    let n = entities::count(run);
    let mut firsts = [0usize; 256];
    let mut counts = [0u8; 256];
    for node in &run.nodes[..n] {
        let at = index_of(node.id);
        firsts[at] = node.first;
        counts[at] = node.pins;
    }
    SourcePlaces { firsts, counts }
}

// Whether an ID is an Output Terminal's: the entity that bears it has no output.
fn is_output(run: Run, id: u8) -> bool
    ensures { result ≡ is_output run id }
{
    let n = entities::count(run);
    for node in &run.nodes[..n] {
        if node.id == id {
            return !node.feeds;
        }
    }
    false
}

// The routes of a run that the reader has found nothing wrong with.
fn list_run(config: &[u8], run: Run, id: u8, list: &mut [u8]) -> Listing
    ensures value { result ≡ listing_in config.now run id (length list.old) }
    ensures list_after { list.new ≡ list_in config.now run id list.old }
{
    if !is_output(run, id) {
        return upstream::refused(45, 0);
    }
    let tables = source_places(run);
    upstream::list_ways(config, &tables.firsts, &tables.counts, id, list)
}

// Lists every route from the Output Terminal that bears an ID up to the Input Terminals.
pub fn list_routes(config: &[u8], id: u8, list: &mut [u8]) -> Listing
    ensures value { result ≡ listing_of config.now id (length list.old) }
    ensures list_after { list.new ≡ list_after config.now id list.old }
{
    match topology::judge(config) {
        Err(refusal) => upstream::refused(refusal.number, refusal.place),
        Ok(found) => list_run(config, found.run, id, list),
    }
}

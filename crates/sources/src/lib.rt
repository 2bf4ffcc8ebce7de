#![tactic(auto)]
// Lookup by ID and rule 11 (document 01): a source is an entity that has an output. What this crate promises to the layer above: its public
// function answers, for every configuration and every run whatever, as the definitions of specs/ say. It looks at the first entities of a
// run, as many as the run counts and at most 32.
ghost use Rattle.std.specs.Prelude.{◌≡◌, None, get_or};
ghost use Rattle.std.specs.List.{list_any};
ghost use Rattle.sources.specs.Lookup.{directory_of};
ghost use Rattle.sources.specs.Breach.{wrong_by, breach11};

use entities::Run;
use ground::index_of;

// By ID: nothing where no entity of the run bears it, else whether the first that does has an output.
fn directory(run: Run) -> [Option<bool>; 256]
    ensures { result ≡ directory_of run }
{
    let n = entities::count(run);
    let mut found = [None; 256];
    for bearer in &run.nodes[..n] {
        let id = index_of(bearer.id);
        found[id] = found[id].or(Some(bearer.feeds));
    }
    found
}

// The entity that bears an ID, by the directory of a run.
fn find(found: &[Option<bool>; 256], id: u8) -> Option<bool>
    ensures { result ≡ get_or found.now id None }
{
    found[index_of(id)]
}

// Whether a source ID is 0, unknown, or borne by an entity with no output: an Output Terminal, a Clock Source; the else of the lookup is the refusal.
#[tactic(auto, using(crate::proofs::Tests::zero_id, crate::proofs::Tests::unknown, crate::proofs::Tests::known))]
fn wrong_source(found: &[Option<bool>; 256], source: u8) -> bool
    ensures { result ≡ wrong_by found.now source }
{
    if source == 0 {
        return true;
    }
    let Some(feeds) = find(found, source) else {
        return true;
    };
    !feeds
}

// Whether one of the source IDs is such.
fn any_wrong(found: &[Option<bool>; 256], ids: &[u8]) -> bool
    ensures { result ≡ list_any (wrong_by found.now) ids.now }
{
    ids.iter().any(|id| wrong_source(found, *id))
}

// The first entity that breaks rule 11.
pub fn check_sources(config: &[u8], run: Run) -> Option<usize>
    ensures { result ≡ breach11 config.now run }
{
    let n = entities::count(run);
    let found = directory(run);
    for user in &run.nodes[..n] {
        if any_wrong(&found, entities::sources(config, *user)) {
            return Some(user.place);
        }
    }
    None
}

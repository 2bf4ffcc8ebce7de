#![tactic(auto)]
// Every way upstream from an ID (document 02, No. 8): "An entity asks its pins and each pin asks the entity behind it, never deeper than 32." What it
// promises to the layer above: for every configuration, all tables of sources by ID, every ID and every lent list, the ways in the list, one after
// another, how many they are and how many bytes they take, or the refusal 46 or 49 and the list as it stood.
ghost use Rattle.std.specs.Prelude.{◌≡◌, ◌+◌, ◌*◌, ◌≤◌, ◌^◌, ◌<◌, [], ◌∷◌, ◌++◌, length};
ghost use Rattle.upstream.specs.Ways.{ways_up, behind_all};
ghost use Rattle.upstream.specs.Telling.{sources_by, sources_in, most_depth, most_routes, path_of, Standing, Further, Ready, so_far, put_in, tell, tell_all};
ghost use Rattle.upstream.specs.Listing.{Counted, refused_with, ways_listing, ways_list};

use entities::Node;
use ground::index_of;

// How deep the walk goes, in entities.
const DEPTH: usize = 32;

// The most routes that are listed.
const MOST_ROUTES: usize = 256;

// What the walk has told so far: how many routes, and how many bytes they take.
#[derive(Clone, Copy)]
pub struct Tally {
    pub routes: usize,
    pub written: usize,
}

// Stays: `ways_listing`, in the contract of `list_ways`, tells number and place, 0 and 0 of no refusal, beside the counts.
// What a listing answers: the number and place of a refusal, 0 and 0 where there is none; how many routes, and how many bytes were written.
#[derive(Clone, Copy)]
pub struct Listing {
    pub number: u8,
    pub place: usize,
    pub routes: usize,
    pub written: usize,
}

// The IDs from the output to the entity that is asked, and how many more may follow.
// Stays: no heap; a path is a value of its own for each pin, and `path_of` reads as many of its IDs as are taken.
#[derive(Clone, Copy)]
pub struct Path {
    pub ids: [u8; 32],
    pub left: usize,
}

// A configuration and the tables by ID: where an entity's source IDs stand in it, and how many there are.
#[derive(Clone, Copy)]
struct Tables<'a> {
    config: &'a [u8],
    firsts: &'a [usize; 256],
    counts: &'a [u8; 256],
}

// The source IDs of the entity that bears an ID, by where the first stands and how many there are; of a node nothing else is read.
fn sources_of(tables: Tables<'_>, id: u8) -> &[u8]
    ensures { result.now ≡ sources_in tables.entry id }
{
    let at = index_of(id);
    entities::sources(
        tables.config,
        Node {
            place: 0,
            first: tables.firsts[at],
            pins: tables.counts[at],
            id,
            kind: 0,
            feeds: true,
        },
    )
}

// The path with one ID more.
fn step(path: Path, id: u8) -> Path
    requires standing { Standing path }
    requires left_nonzero { 0 < path.left }
    ensures { Further path id result }
{
    let mut ids = path.ids;
    ids[DEPTH - path.left] = id;
    Path {
        ids,
        left: path.left - 1,
    }
}

// The IDs of a path, and 00 after the last, put into the list where they have room.
fn put_route(list: &mut [u8], at: usize, path: Path)
    requires standing { Standing path }
    requires most_depth_bound { at + (most_depth + 1) < 2 ^ 64 }
    ensures { list.new ≡ put_in list.old at (path_of path ++ 0 ∷ []) }
{
    let n = DEPTH - path.left;
    if list.len() < at + n + 1 {
        return;
    }
    let end = at + n;
    list[at..end].copy_from_slice(&path.ids[..n]);
    list[end] = 0;
}

// One route more is counted, also where it has no room: the walk that counts is lent nothing.
fn tell_route(path: Path, told: Tally, list: &mut [u8]) -> Tally
    requires ready { Ready path told }
    requires routes_le_most_routes { told.routes ≤ most_routes }
    ensures { so_far result list.new ≡ tell (path_of path) (so_far told list.old) }
{
    put_route(list, told.written, path);
    Tally {
        routes: told.routes + 1,
        written: told.written + (DEPTH - path.left) + 1,
    }
}

// An entity asks its pins; one that has none is where a route ends. One route more than are listed is enough.
#[cycle(asking)]
fn ask_entity(tables: Tables<'_>, id: u8, path: Path, told: Tally, list: &mut [u8]) -> Tally
    requires { Ready path told }
    ensures { so_far result list.new ≡ tell_all (path_of path) (so_far told list.old) (ways_up (sources_in tables.entry) path.left id) }
{
    if path.left == 0 {
        return told;
    }
    if MOST_ROUTES < told.routes {
        return told;
    }
    let sources = sources_of(tables, id);
    let here = step(path, id);
    if sources.len() == 0 {
        return tell_route(here, told, list);
    }
    ask_pins(tables, sources, here, told, list)
}

// Each pin asks the entity behind it, the first pin first.
#[cycle(asking)]
fn ask_pins(tables: Tables<'_>, sources: &[u8], path: Path, told: Tally, list: &mut [u8]) -> Tally
    requires { Ready path told }
    ensures { so_far result list.new ≡ tell_all (path_of path) (so_far told list.old) (behind_all (ways_up (sources_in tables.entry) path.left) sources.now) }
{
    let mut next = told;
    for source in sources {
        next = ask_entity(tables, *source, path, next, list);
    }
    next
}

// Tells every way upstream from an ID.
fn walk(tables: Tables<'_>, id: u8, list: &mut [u8]) -> Tally
    ensures { so_far result list.new ≡ tell_all [] (so_far (record { routes = 0; written = 0 }) list.old) (ways_up (sources_in tables.entry) most_depth id) }
{
    let start = Path {
        ids: [0u8; 32],
        left: DEPTH,
    };
    let none = Tally {
        routes: 0,
        written: 0,
    };
    ask_entity(tables, id, start, none, list)
}

// A refused listing: no routes, nothing written.
pub fn refused(number: u8, place: usize) -> Listing
    ensures { result ≡ refused_with number place }
{
    Listing {
        number,
        place,
        routes: 0,
        written: 0,
    }
}

// How many ways there are, and how many bytes they take, as far as 257 of them: a walk with nothing lent.
fn count(tables: Tables<'_>, id: u8) -> Tally
    ensures { Counted (ways_up (sources_in tables.entry) most_depth id) result }
{
    let mut none = [0u8; 1];
    walk(tables, id, &mut none[..0])
}

// Lists every way upstream from an ID. One walk counts, another then writes. Every input is taken; of tables that no reader made, in which no way
// comes to an end, the walk may be as long as there are ways of 32 entities.
pub fn list_ways<'a>(
    config: &[u8],
    firsts: &'a [usize; 256],
    counts: &'a [u8; 256],
    id: u8,
    list: &mut [u8],
) -> Listing
    ensures value { result ≡ ways_listing (ways_up (sources_by config.now firsts.now counts.now) most_depth id) (length list.old) }
    ensures list_after { list.new ≡ ways_list (ways_up (sources_by config.now firsts.now counts.now) most_depth id) list.old }
{
    let tables = Tables {
        config,
        firsts,
        counts,
    };
    let all = count(tables, id);
    if MOST_ROUTES < all.routes {
        return refused(46, 0);
    }
    if list.len() < all.written {
        return refused(49, 0);
    }
    walk(tables, id, list);
    Listing {
        number: 0,
        place: 0,
        routes: all.routes,
        written: all.written,
    }
}

#![tactic(auto)]
// The cluster buffer of the 3.0 edition (document 02, No. 12): a second lent buffer "which tiles into cluster descriptors (length at 0..1, 7 or more;
// ID at 4..5; c at 6) with distinct IDs that are not 0". What it promises to the layer above: for every slice, where it is none (refusal 51), the
// descriptor that bears an ID, and whether two have the same content.
ghost use Rattle.std.specs.Prelude.{◌≡◌, ◌||◌, eqb};
ghost use Rattle.ground.specs.First.{is_before};
ghost use Rattle.scan.specs.Cutting.{end_by};
ghost use Rattle.buffer.specs.Clusters.{two_bytes, cluster_id};
ghost use Rattle.buffer.specs.Reading.{bearing, found_cluster, cluster_with, breach51, same_content};

use scan::{stretch, word_at};

// The least length of a cluster descriptor.
const LEAST: usize = 7;

// Where the cluster descriptor at a place ends: the place itself where none stands.
// Stays: scan::end_of reads a length of one byte, 2 or more; one function for both would be handed the width and the least length at each call.
fn cluster_end(s: &[u8], at: usize) -> usize
    ensures { result ≡ end_by two_bytes s.now at }
{
    let n = word_at(s, at) as usize;
    if n < LEAST {
        return at;
    }
    if s.len() - at < n {
        return at;
    }
    at + n
}

// Whether a cluster descriptor bears an ID.
fn bears(k: &[u8], id: u16) -> bool
    ensures { result ≡ bearing id k.now }
{
    word_at(k, 4) == id
}

// The place of the first cluster descriptor that bears an ID.
pub fn find(s: &[u8], id: u16) -> Option<usize>
    ensures { result ≡ found_cluster s.now id }
{
    let mut at: usize = 0;
    loop {
        let e = cluster_end(s, at);
        if e == at {
            return None;
        }
        if bears(&s[at..e], id) {
            return Some(at);
        }
        at = e;
    }
}

// Whether the ID of the cluster descriptor k at a place is 0 or borne by an earlier one.
fn is_wrong(s: &[u8], at: usize, k: &[u8]) -> bool
    ensures { result ≡ (eqb (cluster_id k.now) 0 || is_before (found_cluster s.now (cluster_id k.now)) at) }
{
    let id = word_at(k, 4);
    if id == 0 {
        return true;
    }
    let first = find(s, id);
    match first {
        Some(place) => place < at,
        None => false,
    }
}

// The place of the first cluster descriptor, if any, that does not fit, or whose ID is 0 or borne by an earlier one.
// Stays: find walks alike, but answers nowhere where this asks whether the walk came to the end, so a walk for both hands its last place on too.
pub fn check_buffer(s: &[u8]) -> Option<usize>
    ensures { result ≡ breach51 s.now }
{
    let mut at: usize = 0;
    loop {
        let e = cluster_end(s, at);
        if e == at {
            if at == s.len() {
                return None;
            }
            return Some(at);
        }
        if is_wrong(s, at, &s[at..e]) {
            return Some(at);
        }
        at = e;
    }
}

// The cluster descriptor that bears an ID; empty where none does.
pub fn cluster_with(s: &[u8], id: u16) -> &[u8]
    ensures { result.now ≡ cluster_with s.now id }
{
    let first = find(s, id);
    match first {
        Some(place) => stretch(s, place, cluster_end(s, place)),
        None => &s[..0],
    }
}

// Whether two cluster descriptors have the same content: all bytes but the ID.
pub fn same_content(a: &[u8], b: &[u8]) -> bool
    ensures { result ≡ same_content a.now b.now }
{
    if !check::same(stretch(a, 0, 4), stretch(b, 0, 4)) {
        return false;
    }
    check::same(stretch(a, 6, a.len()), stretch(b, 6, b.len()))
}

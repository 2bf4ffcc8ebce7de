#![tactic(auto)]
// The collection: the numbers of streaming and MIDI groups that the header lists (document 01, rule 7). What it promises to the crate above:
// whether they are distinct and those of the streaming and MIDI groups, all of them.
ghost use Rattle.std.specs.Prelude.{◌≡◌, false, ◌||◌, get_or, replicate};
ghost use Rattle.std.specs.List.{list_all};
ghost use Rattle.scan.specs.Cutting.{rest};
ghost use Rattle.search.specs.Want.{is_audio};
ghost use Rattle.collection.specs.Reading.{collects};
ghost use Rattle.collection.specs.Marks.{Listed, Met, Members};

use ground::index_of;
use scan::{byte_at, descriptors_from};
use search::is_audio;

// Whether the listed numbers are distinct; where they are, they are marked.
// Stays: a flag and the marks beside it, since Listed says both of one list.
fn mark_listed(listed: &[u8], marks: &mut [bool; 256]) -> bool
    requires { marks.old ≡ replicate 256 false }
    ensures { Listed listed.now marks.new result }
{
    for byte in listed {
        let number = index_of(*byte);
        if marks[number] {
            return false;
        }
        marks[number] = true;
    }
    true
}

// Whether a descriptor opens a streaming or MIDI group.
fn opens_member(d: &[u8]) -> bool
    ensures { result ≡ (is_audio 2 d.now || is_audio 3 d.now) }
{
    is_audio(d, 2) || is_audio(d, 3)
}

// Whether a descriptor opens a streaming or MIDI group whose number is not marked as listed. The number of such a group is marked as known.
fn is_unlisted(d: &[u8], listed: &[bool; 256], known: &mut [bool; 256]) -> bool
    ensures { Met d.now listed.now known.old known.new result }
{
    if !opens_member(d) {
        return false;
    }
    let number = index_of(byte_at(d, 2));
    known[number] = true;
    !listed[number]
}

// Whether some streaming or MIDI group's number is not marked as listed; where none is, the numbers of those groups are marked as known.
fn any_unlisted(config: &[u8], listed: &[bool; 256], known: &mut [bool; 256]) -> bool
    requires { known.old ≡ replicate 256 false }
    ensures { Members (rest config.now 0) listed.now known.new result }
{
    for (_, d) in descriptors_from(config, 0) {
        if is_unlisted(d, listed, known) {
            return true;
        }
    }
    false
}

// Whether each listed number is marked as known.
fn are_known(listed: &[u8], known: &[bool; 256]) -> bool
    ensures { result ≡ list_all (λ k. get_or known.now k false) listed.now }
{
    listed.iter().all(|number| known[index_of(*number)])
}

// Whether the collection is right.
pub fn is_right(config: &[u8], listed: &[u8]) -> bool
    ensures { result ≡ collects config.now listed.now }
{
    let mut marks = [false; 256];
    if !mark_listed(listed, &mut marks) {
        return false;
    }
    let mut known = [false; 256];
    if any_unlisted(config, &marks, &mut known) {
        return false;
    }
    are_known(listed, &known)
}

#![tactic(auto)]
// What a descriptor is, and searches by it. What it promises to the crates above: for every descriptor, whether it is an interface descriptor,
// and of which audio subclass; for every slice and every place, the first descriptor from there on that is wanted.
ghost use Rattle.std.specs.Prelude.{◌≡◌};
ghost use Rattle.search.specs.Want.{is_interface, is_class, is_audio, is_setting, is_member, wants, found_from};

use scan::{byte_at, descriptors_from};

// What a search among descriptors stops at.
// Stays: cases, no closure for a test: found_from of specs/Want.antt is said by the case, and find promises it.
#[derive(Clone, Copy)]
pub enum Want {
    // An interface descriptor of class 1 and this subclass.
    Audio(u8),
    // An interface descriptor of this number and alternate setting.
    Setting(u8, u8),
    // The interface descriptor of a streaming or MIDI group of this number.
    Member(u8),
    // A descriptor of another type than 24: what ends a run.
    NotClass,
    // A type 24 descriptor, or the interface descriptor that ends the group.
    ClassOrInterface,
}

// An interface descriptor: type 04. It opens a group.
#[tactic(auto, unfolding(crate::specs::Want::is_interface))]
pub fn is_interface(d: &[u8]) -> bool
    ensures { result ≡ is_interface d.now }
{
    byte_at(d, 1) == 4
}

// An interface descriptor of class 1 and this subclass: 1 AudioControl, 2 AudioStreaming, 3 MIDI.
#[tactic(auto, unfolding(crate::specs::Want::is_audio))]
pub fn is_audio(d: &[u8], subclass: u8) -> bool
    ensures { result ≡ is_audio subclass d.now }
{
    is_interface(d) && byte_at(d, 5) == 1 && byte_at(d, 6) == subclass
}

// An interface descriptor of this number and alternate setting.
#[tactic(auto, unfolding(crate::specs::Want::is_setting))]
fn is_setting(d: &[u8], number: u8, setting: u8) -> bool
    ensures { result ≡ is_setting number setting d.now }
{
    is_interface(d) && byte_at(d, 2) == number && byte_at(d, 3) == setting
}

// The interface descriptor of a streaming or MIDI group of this number.
#[tactic(auto, unfolding(crate::specs::Want::is_member))]
fn is_member(d: &[u8], number: u8) -> bool
    ensures { result ≡ is_member number d.now }
{
    (is_audio(d, 2) || is_audio(d, 3)) && byte_at(d, 2) == number
}

// A descriptor of type 24 hex, as the header and the entities are: a class descriptor.
#[tactic(auto, unfolding(crate::specs::Want::is_class))]
fn is_class(d: &[u8]) -> bool
    ensures { result ≡ is_class d.now }
{
    byte_at(d, 1) == 0x24
}

// Whether a search stops at a descriptor.
#[tactic(auto, unfolding(crate::specs::Want::wants))]
fn wanted(d: &[u8], want: Want) -> bool
    ensures { result ≡ wants want d.now }
{
    match want {
        Want::Audio(subclass) => is_audio(d, subclass),
        Want::Setting(number, setting) => is_setting(d, number, setting),
        Want::Member(number) => is_member(d, number),
        Want::NotClass => !is_class(d),
        Want::ClassOrInterface => is_class(d) || is_interface(d),
    }
}

// The first wanted descriptor of those that stand one after another from a place on.
pub fn find(s: &[u8], from: usize, want: Want) -> Option<usize>
    ensures { result ≡ found_from s.now from want }
{
    descriptors_from(s, from)
        .find(|(_, d)| wanted(d, want))
        .map(|(at, _)| at)
}

#![tactic(auto)]
// The layouts of the five kinds of entities (document 01, "Entities"). To the layer above: a descriptor, any slice, becomes an enum case
// that carries its kind's own numbers, or Unknown where it has none of the five layouts. What else a case says is crate kinds' to tell. The layouts are
// said in specs/Layouts.
ghost use Rattle.std.specs.Prelude.{◌≡◌, ◌≤◌, ◌<◌, length};
ghost use Rattle.layout.specs.Layout.{entity_of, input_of, output_of, mixer_of, selector_of, feature_of, cluster_at, most_pins};
ghost use Rattle.layout.specs.Withdrawn.{is_printed, is_wrong};
ghost use Rattle.ground.specs.Pick.{within};

use scan::{byte_at, word_at};

// The most pins that a Mixer or a Selector may have (document 02, No. 7).
pub const MOST_PINS: u8 = 24;

// A cluster is channels c, a bitmap of locations, and a first name index.
#[derive(Clone, Copy)]
pub struct Cluster {
    pub channels: u8,
    pub locations: u16,
    pub names: u8,
}

// What a descriptor of the run is: one of the five kinds, with that kind's own numbers.
#[derive(Clone, Copy)]
pub enum Entity {
    // None of the layouts: any other kind, a wrong layout, or the printed Selector.
    // Stays: a case, no Option around the kinds: entity_of and layout_number of specs/ have it among them.
    Unknown,
    Input {
        id: u8,
        terminal: u16,
        cluster: Cluster,
    },
    Output {
        id: u8,
        terminal: u16,
        source: u8,
    },
    Mixer {
        id: u8,
        pins: u8,
        cluster: Cluster,
    },
    Selector {
        id: u8,
        pins: u8,
    },
    Feature {
        id: u8,
        source: u8,
        size: u8,
    },
}

fn cluster_at(d: &[u8], at: usize) -> Cluster
    requires { at < 4096 }
    ensures { result ≡ cluster_at d.now at }
{
    Cluster {
        channels: byte_at(d, at),
        locations: word_at(d, at + 1),
        names: byte_at(d, at + 3),
    }
}

#[tactic(auto, using(crate::proofs::LayoutLemmas::input_right, crate::proofs::LayoutLemmas::input_wrong))]
fn read_input(d: &[u8]) -> Entity
    ensures { result ≡ input_of d.now }
{
    if d.len() != 12 {
        return Entity::Unknown;
    }
    Entity::Input {
        id: byte_at(d, 3),
        terminal: word_at(d, 4),
        cluster: cluster_at(d, 7),
    }
}

#[tactic(auto, using(crate::proofs::LayoutLemmas::output_right, crate::proofs::LayoutLemmas::output_wrong))]
fn read_output(d: &[u8]) -> Entity
    ensures { result ≡ output_of d.now }
{
    if d.len() != 9 {
        return Entity::Unknown;
    }
    Entity::Output {
        id: byte_at(d, 3),
        terminal: word_at(d, 4),
        source: byte_at(d, 7),
    }
}

// Whether a number of pins is 1 to 24.
pub fn right_pins(pins: u8) -> bool
    ensures { result ≡ within 1 pins most_pins }
{
    (1..=MOST_PINS).contains(&pins)
}

#[tactic(auto, using(crate::proofs::LayoutLemmas::mixer_right, crate::proofs::LayoutLemmas::mixer_wrong))]
fn read_mixer(d: &[u8]) -> Entity
    ensures { result ≡ mixer_of d.now }
{
    let pins = byte_at(d, 4);
    if !right_pins(pins) || d.len() < 10 + pins as usize {
        return Entity::Unknown;
    }
    Entity::Mixer {
        id: byte_at(d, 3),
        pins,
        cluster: cluster_at(d, 5 + pins as usize),
    }
}

#[tactic(auto, using(crate::proofs::LayoutLemmas::selector_right, crate::proofs::LayoutLemmas::selector_wrong))]
fn read_selector(d: &[u8]) -> Entity
    ensures { result ≡ selector_of d.now }
{
    let pins = byte_at(d, 4);
    if !right_pins(pins) || d.len() != 6 + pins as usize {
        return Entity::Unknown;
    }
    Entity::Selector {
        id: byte_at(d, 3),
        pins,
    }
}

#[tactic(auto, using(crate::proofs::LayoutLemmas::feature_right, crate::proofs::LayoutLemmas::feature_wrong))]
fn read_feature(d: &[u8]) -> Entity
    ensures { result ≡ feature_of d.now }
{
    let size = byte_at(d, 5);
    if !(1..=4).contains(&size) || d.len() < 7 {
        return Entity::Unknown;
    }
    Entity::Feature {
        id: byte_at(d, 3),
        source: byte_at(d, 4),
        size,
    }
}

// What the layout of a descriptor says it is; byte 2 is the kind.
#[tactic(auto, using(crate::proofs::KindLemmas::by_kind))]
pub fn read(d: &[u8]) -> Entity
    ensures { result ≡ entity_of d.now }
{
    match byte_at(d, 2) {
        2 => read_input(d),
        3 => read_output(d),
        4 => read_mixer(d),
        5 => read_selector(d),
        6 => read_feature(d),
        _ => Entity::Unknown,
    }
}

// Whether a descriptor is the printed Selector, which was taken once (document 02, No. 6): of length 7+p, a byte 0 in front of its sources.
#[tactic(auto, unfolding(crate::specs::Withdrawn::is_printed))]
fn is_printed(d: &[u8]) -> bool
    ensures { result ≡ is_printed d.now }
{
    let pins = byte_at(d, 4);
    byte_at(d, 2) == 5 && right_pins(pins) && d.len() == 7 + pins as usize && byte_at(d, 5) == 0
}

// Whether the layout of a descriptor is wrong: none of the five, nor the one that was withdrawn.
#[tactic(auto, using(crate::proofs::WithdrawnLemmas::wrong_read), unfolding(crate::specs::Layout::is_unknown))]
pub fn is_wrong(d: &[u8]) -> bool
    ensures { result ≡ is_wrong d.now }
{
    matches!(read(d), Entity::Unknown) && !is_printed(d)
}

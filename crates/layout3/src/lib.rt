#![tactic(auto)]
// The layouts of the 3.0 edition (document 02, No. 12; 001, tables 4-16, 4-17, 4-29 to 4-31, 4-43, subtypes of A-15). To the layer above: a
// descriptor, any slice, becomes an enum case that carries its kind's own numbers, or Unknown where its layout is wrong; and what such a
// case says: its kind on the sheet, its pins and sources, its clock, its cluster. The layouts are said in specs/Layouts.
ghost use Rattle.std.specs.Prelude.{◌≡◌};
ghost use Rattle.layout3.specs.Layout.{input_of, output_of, mixer_of, selector_of, feature_of, clock_of, entity_of};
ghost use Rattle.layout3.specs.Facts.{shown, facts_of};

use layout::right_pins;
use scan::{byte_at, word_at};

// What a descriptor of the run is: one of the six kinds, with that kind's own numbers.
#[derive(Clone, Copy)]
pub enum Entity {
    // None of the layouts: any other kind, or a wrong layout.
    // Stays: a case, no Option around the kinds: entity_of and facts_of of specs/ have it among them.
    Unknown,
    Input { clock: u8, cluster: u16 },
    Output { source: u8, clock: u8 },
    Mixer { pins: u8, cluster: u16 },
    Selector { pins: u8 },
    Feature { source: u8 },
    Clock,
}

// What an entity's case says: the number of its kind on the sheet; the offset of its first source ID and how many there are; whether it may
// be a source; whether it has a clock ID, and which; whether it names a cluster, and which.
// Stays: a mark beside clock and beside cluster, no Option: facts_of, wrong_clock_by and unknown_by name the four fields.
#[derive(Clone, Copy)]
pub struct Facts {
    pub kind: u8,
    pub first: u8,
    pub pins: u8,
    pub feeds: bool,
    pub clocked: bool,
    pub clock: u8,
    pub declares: bool,
    pub cluster: u16,
}

#[tactic(auto, using(crate::specs::LayoutLaws::input_right, crate::specs::LayoutLaws::input_wrong))]
fn read_input(d: &[u8]) -> Entity
    ensures { result ≡ input_of d.now }
{
    if d.len() != 20 {
        return Entity::Unknown;
    }
    Entity::Input {
        clock: byte_at(d, 7),
        cluster: word_at(d, 12),
    }
}

#[tactic(auto, using(crate::specs::LayoutLaws::output_right, crate::specs::LayoutLaws::output_wrong))]
fn read_output(d: &[u8]) -> Entity
    ensures { result ≡ output_of d.now }
{
    if d.len() != 19 {
        return Entity::Unknown;
    }
    Entity::Output {
        source: byte_at(d, 7),
        clock: byte_at(d, 8),
    }
}

#[tactic(auto, using(crate::specs::LayoutLaws::mixer_right, crate::specs::LayoutLaws::mixer_wrong))]
fn read_mixer(d: &[u8]) -> Entity
    ensures { result ≡ mixer_of d.now }
{
    let pins = byte_at(d, 4);
    if !right_pins(pins) || d.len() < 13 + pins as usize {
        return Entity::Unknown;
    }
    Entity::Mixer {
        pins,
        cluster: word_at(d, 5 + pins as usize),
    }
}

#[tactic(auto, using(crate::specs::LayoutLaws::selector_right, crate::specs::LayoutLaws::selector_wrong))]
fn read_selector(d: &[u8]) -> Entity
    ensures { result ≡ selector_of d.now }
{
    let pins = byte_at(d, 4);
    if !right_pins(pins) || d.len() != 11 + pins as usize {
        return Entity::Unknown;
    }
    Entity::Selector { pins }
}

#[tactic(auto, using(crate::specs::LayoutLaws::feature_right, crate::specs::LayoutLaws::feature_wrong))]
fn read_feature(d: &[u8]) -> Entity
    ensures { result ≡ feature_of d.now }
{
    if d.len() < 7 {
        return Entity::Unknown;
    }
    Entity::Feature {
        source: byte_at(d, 4),
    }
}

#[tactic(auto, using(crate::specs::LayoutLaws::clock_right, crate::specs::LayoutLaws::clock_wrong))]
fn read_clock(d: &[u8]) -> Entity
    ensures { result ≡ clock_of d.now }
{
    if d.len() != 12 {
        return Entity::Unknown;
    }
    Entity::Clock
}

// What the layout of a descriptor says it is; byte 2 is the subtype.
#[tactic(auto, using(crate::proofs::KindLemmas::by_kind))]
pub fn read(d: &[u8]) -> Entity
    ensures { result ≡ entity_of d.now }
{
    match byte_at(d, 2) {
        2 => read_input(d),
        3 => read_output(d),
        5 => read_mixer(d),
        6 => read_selector(d),
        7 => read_feature(d),
        11 => read_clock(d),
        _ => Entity::Unknown,
    }
}

// The facts of an entity with no clock and no cluster of its own.
fn plain(kind: u8, first: u8, pins: u8, feeds: bool) -> Facts
    ensures { result ≡ shown kind first pins feeds }
{
    Facts {
        kind,
        first,
        pins,
        feeds,
        clocked: false,
        clock: 0,
        declares: false,
        cluster: 0,
    }
}

// What an entity's case says.
#[tactic(auto, unfolding(crate::specs::Facts::facts_of))]
pub fn facts_of(entity: Entity) -> Facts
    ensures { result ≡ facts_of entity }
{
    match entity {
        Entity::Unknown => plain(0, 0, 0, false),
        Entity::Input { clock, cluster } => Facts {
            clocked: true,
            clock,
            declares: true,
            cluster,
            ..plain(2, 0, 0, true)
        },
        Entity::Output { clock, .. } => Facts {
            clocked: true,
            clock,
            ..plain(3, 7, 1, false)
        },
        Entity::Mixer { pins, cluster } => Facts {
            declares: true,
            cluster,
            ..plain(4, 5, pins, true)
        },
        Entity::Selector { pins } => plain(5, 5, pins, true),
        Entity::Feature { .. } => plain(6, 4, 1, true),
        Entity::Clock => plain(11, 0, 0, false),
    }
}

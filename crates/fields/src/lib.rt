#![tactic(auto)]
// An entity with all its fields (document 02, No. 9): every byte of its descriptor but the length and the type, those that the reader skips
// too. What it promises to the layer above: from a descriptor the entity with its fields, by the layouts that the reader goes by
// (layout/specs/Layouts). Each kind is a case with its own numbers; what varies in length stands beside it, as parts of a lent slice.
ghost use Rattle.std.specs.Prelude.{◌≡◌, ◌+◌, ◌≤◌, ◌<◌, length};
ghost use Rattle.ground.specs.Numbers.{byte};
ghost use Rattle.layout.specs.Format.{two_of};
ghost use Rattle.layout.specs.Layouts as kind;
ghost use Rattle.fields.specs.Listed.{KindRead, ReadAs, blank_item};

use layout::Entity;
use scan::byte_at;

// Stays: `blank_item`, which the lists of the layers above are filled up with, is an entity of no kind.
// The numbers of a kind, in the order of its descriptor; the sources, the control bytes and the masks stand beside them.
#[derive(Clone, Copy)]
pub enum Numbers {
    // None of the kinds.
    Unknown,
    Input {
        id: u8,
        terminal: u16,
        paired: u8,
        channels: u8,
        locations: u16,
        names: u8,
        name: u8,
    },
    Output {
        id: u8,
        terminal: u16,
        paired: u8,
        source: u8,
        name: u8,
    },
    Mixer {
        id: u8,
        channels: u8,
        locations: u16,
        names: u8,
        name: u8,
    },
    Selector {
        id: u8,
        name: u8,
    },
    Feature {
        id: u8,
        source: u8,
        size: u8,
        name: u8,
    },
    // The printed Selector, which is withdrawn (document 02, No. 6).
    Printed {
        id: u8,
        name: u8,
    },
}

// A part of a lent slice, from one place up to another; as much of it as there is.
#[derive(Clone, Copy)]
pub struct Span {
    pub from: usize,
    pub end: usize,
}

// An entity: its numbers, and where in a lent slice the IDs of its sources stand (a Mixer's or a Selector's) and its control bytes (a
// Mixer's) or masks (a Feature Unit's).
#[derive(Clone, Copy)]
pub struct Item {
    pub numbers: Numbers,
    pub sources: Span,
    pub controls: Span,
}

// An entity of no kind: a spare place of a list.
pub fn blank() -> Item
    ensures { result ≡ blank_item }
{
    plain(Numbers::Unknown)
}

// A Terminal, or an entity of no kind: nothing of it varies in length.
fn plain(numbers: Numbers) -> Item
    ensures { result ≡ record { numbers = numbers; sources = record { from = 0; end = 0 }; controls = record { from = 0; end = 0 } } }
{
    Item {
        numbers,
        sources: Span { from: 0, end: 0 },
        controls: Span { from: 0, end: 0 },
    }
}

// The number of two bytes at an offset, the low byte first: these two are its own.
fn word_of(d: &[u8], at: usize) -> u16
    requires { at < 4096 }
    ensures { two_of result ≡ record { low = byte d.now at; high = byte d.now (at + 1) } }
{
    u16::from_le_bytes([byte_at(d, at), byte_at(d, at + 1)])
}

fn read_input(d: &[u8]) -> Item
    ensures { KindRead kind.input d.now result }
{
    let numbers = Numbers::Input {
        id: byte_at(d, 3),
        terminal: word_of(d, 4),
        paired: byte_at(d, 6),
        channels: byte_at(d, 7),
        locations: word_of(d, 8),
        names: byte_at(d, 10),
        name: byte_at(d, 11),
    };
    plain(numbers)
}

fn read_output(d: &[u8]) -> Item
    ensures { KindRead kind.output d.now result }
{
    let numbers = Numbers::Output {
        id: byte_at(d, 3),
        terminal: word_of(d, 4),
        paired: byte_at(d, 6),
        source: byte_at(d, 7),
        name: byte_at(d, 8),
    };
    plain(numbers)
}

fn read_mixer(d: &[u8]) -> Item
    requires { 1 ≤ length d.now }
    ensures { KindRead kind.mixer d.now result }
{
    let pins = byte_at(d, 4) as usize;
    let last = d.len() - 1;
    let numbers = Numbers::Mixer {
        id: byte_at(d, 3),
        channels: byte_at(d, 5 + pins),
        locations: word_of(d, 6 + pins),
        names: byte_at(d, 8 + pins),
        name: byte_at(d, last),
    };
    Item {
        numbers,
        sources: Span {
            from: 5,
            end: 5 + pins,
        },
        controls: Span {
            from: 9 + pins,
            end: last,
        },
    }
}

fn read_selector(d: &[u8]) -> Item
    ensures { KindRead kind.selector d.now result }
{
    let pins = byte_at(d, 4) as usize;
    let numbers = Numbers::Selector {
        id: byte_at(d, 3),
        name: byte_at(d, 5 + pins),
    };
    Item {
        numbers,
        sources: Span {
            from: 5,
            end: 5 + pins,
        },
        controls: Span { from: 0, end: 0 },
    }
}

fn read_feature(d: &[u8]) -> Item
    requires { 1 ≤ length d.now }
    ensures { KindRead kind.feature d.now result }
{
    let last = d.len() - 1;
    let numbers = Numbers::Feature {
        id: byte_at(d, 3),
        source: byte_at(d, 4),
        size: byte_at(d, 5),
        name: byte_at(d, last),
    };
    Item {
        numbers,
        sources: Span { from: 0, end: 0 },
        controls: Span { from: 6, end: last },
    }
}

// The entity with all its fields that a descriptor of the run is, whatever slice it is given: its sources and its control bytes or masks are
// parts of that slice. No kind where the layout is wrong.
pub fn read(d: &[u8]) -> Item
    ensures { ReadAs d.now result }
{
    let entity = layout::read(d);
    match entity {
        Entity::Unknown => blank(),
        Entity::Input { .. } => read_input(d),
        Entity::Output { .. } => read_output(d),
        Entity::Mixer { .. } => read_mixer(d),
        Entity::Selector { .. } => read_selector(d),
        Entity::Feature { .. } => read_feature(d),
    }
}

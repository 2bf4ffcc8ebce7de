#![tactic(auto)]
// The table of controls (document 01, "Controls and settings"): what stands in it, and how a control is found in it. What this
// crate promises to the layer above: each function answers, for every table whatever, as the definitions of specs/ say.
ghost use Rattle.std.specs.Prelude.{◌≡◌};
ghost use Rattle.table.specs.Controls.{blank_control, empty_table, at, placed, sense_of, size_of, range_of, answers_to};
ghost use Rattle.table.specs.First.{entry_in};

use setting::{Range, Sort};

// How many controls a table has room for.
pub const CONTROLS: usize = 128;

// One control: which it is (a Selector's has selector 0 and channel 0), how many pins a Selector has, and its numbers, as
// on the wire: two bytes each, two's complement where the control is signed. By default it is a spare place, all zeros.
// Stays: a flag beside MIN to CUR, since sound_ranged and fresh_control of the definitions name loaded and the numbers apart.
#[derive(Clone, Copy, Default)]
pub struct Control {
    pub unit: u8,
    pub channel: u8,
    pub selector: u8,
    pub pins: u8,
    pub loaded: bool,
    pub min: u16,
    pub max: u16,
    pub res: u16,
    pub cur: u16,
}

impl Control {
    pub fn range(&self) -> Range
        ensures { result ≡ range_of self.now }
    {
        Range {
            min: self.min,
            max: self.max,
            res: self.res,
        }
    }
}

// The first count controls are the table's; the others are spare places.
#[derive(Clone, Copy)]
pub struct Table {
    pub count: usize,
    pub controls: [Control; CONTROLS],
}

// What a selector's control holds.
// Stays: Unknown is no None, since the definitions size_of, sound_by and takes give it answers of its own.
#[derive(Clone, Copy)]
pub enum Sense {
    Unknown,
    YesNo,
    Ranged(Sort),
    Pin,
}

// The table with no control.
pub fn empty() -> Table
    ensures { result ≡ empty_table }
{
    Table {
        count: 0,
        controls: [Control::default(); CONTROLS],
    }
}

// What stands at an index; past the last, what a spare place holds.
pub fn control_at(table: Table, index: usize) -> Control
    ensures { result ≡ at table index }
{
    table.controls.get(index).copied().unwrap_or_default()
}

// The table with the control at an index, and else as it was; past the last nothing can be put.
pub fn put(table: Table, index: usize, control: Control) -> Table
    ensures { result ≡ placed table index control }
{
    let mut changed = table;
    if index < CONTROLS {
        changed.controls[index] = control;
    }
    changed
}

// What a control with this selector holds.
#[tactic(auto, unfolding(crate::specs::Controls::sense_of))]
pub fn sense_of(selector: u8) -> Sense
    ensures { result ≡ sense_of selector }
{
    match selector {
        0 => Sense::Pin,
        1 | 7 | 9 | 10 => Sense::YesNo,
        2 => Sense::Ranged(Sort::Volume),
        3..=5 => Sense::Ranged(Sort::Tone),
        8 => Sense::Ranged(Sort::Delay),
        _ => Sense::Unknown,
    }
}

// How many bytes such a control's value has on the wire.
pub fn size(held: Sense) -> usize
    ensures { result ≡ size_of held }
{
    match held {
        Sense::Ranged(Sort::Volume | Sort::Delay) => 2,
        _ => 1,
    }
}

// Whether the control is the one of this unit, channel and selector.
#[tactic(auto, unfolding(crate::specs::Controls::answers_to))]
pub fn answers(control: Control, unit: u8, channel: u8, selector: u8) -> bool
    ensures { result ≡ answers_to unit channel selector control }
{
    control.unit == unit && control.channel == channel && control.selector == selector
}

// Where the control of this unit, channel and selector first stands, with the control.
pub fn find(table: Table, unit: u8, channel: u8, selector: u8) -> Option<(usize, Control)>
    ensures { result ≡ entry_in table unit channel selector }
{
    let count = table.count.min(CONTROLS);
    for (index, control) in table.controls[..count].iter().enumerate() {
        if answers(*control, unit, channel, selector) {
            return Some((index, *control));
        }
    }
    None
}

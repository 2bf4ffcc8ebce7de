#![tactic(auto)]
// What a Set and a Get ask of each control that they address, and what they do to it (document 01, rows 35 to 39; document 02, Nos. 1 and
// 2). What this crate promises to the layer above: for every control and data whatever, what specs/Answers.antt says of one control; there
// too stands what a Set and a Get come to at several.
ghost use Rattle.std.specs.Prelude.{◌≡◌, min, take, drop};
ghost use Rattle.table.specs.Controls.{size_of};
ghost use Rattle.answers.specs.Held.{is_ranged, of_range, lacking, part_of, unready, value_in, takes, stored_for, with_cur};
ghost use Rattle.answers.specs.Answers.{size_in, set_asks, set_to, set_number, get_asks, get_number};

use scan::word_at;
use setup::Part;
use table::{Control, Sense};

fn is_ranged(held: Sense) -> bool
    ensures { result ≡ is_ranged held }
{
    matches!(held, Sense::Ranged(_))
}

// Whether the part is one that only a ranged control has.
fn of_range(part: Part) -> bool
    ensures { result ≡ of_range part }
{
    matches!(part, Part::Min | Part::Max | Part::Res)
}

// Whether the control has no such part.
#[tactic(auto, unfolding(crate::specs::Held::lacking))]
fn lacks(held: Sense, part: Part) -> bool
    ensures { result ≡ lacking held part }
{
    of_range(part) && !is_ranged(held)
}

// The number that a part of the control is.
pub fn part_of(part: Part, control: Control) -> u16
    ensures { result ≡ part_of part control }
{
    match part {
        Part::Cur => control.cur,
        Part::Min => control.min,
        Part::Max => control.max,
        Part::Res => control.res,
    }
}

// Whether the control is ranged and not loaded.
#[tactic(auto, unfolding(crate::specs::Held::unready))]
fn is_unready(held: Sense, control: Control) -> bool
    ensures { result ≡ unready held control }
{
    is_ranged(held) && !control.loaded
}

// Whether a Set to this number is taken: a yes/no takes 0 and 1, a Selector its pins, a ranged control each number.
fn takes_number(held: Sense, control: Control, wanted: u16) -> bool
    ensures { result ≡ takes held control wanted }
{
    match held {
        Sense::Unknown => false,
        Sense::YesNo => wanted <= 1,
        Sense::Ranged(_) => true,
        Sense::Pin => (1..=control.pins as u16).contains(&wanted),
    }
}

// What a Set to this number stores: of a ranged control the closest setting, of another the number.
fn stored_for(held: Sense, control: Control, wanted: u16) -> u16
    ensures { result ≡ stored_for held control wanted }
{
    match held {
        Sense::Ranged(sort) => setting::closest(sort, control.range(), wanted),
        _ => wanted,
    }
}

// The number that the data send to a control that holds this: as many bytes as its value has, from this place on.
fn sent_at(held: Sense, data: &[u8], at: usize) -> u16
    ensures { result ≡ value_in (take (size_of held) (drop at «data».now)) }
{
    if table::size(held) == 1 {
        scan::byte_at(data, at) as u16
    } else {
        word_at(data, at)
    }
}

fn with_cur(control: Control, cur: u16) -> Control
    ensures { result ≡ with_cur cur control }
{
    Control { cur, ..control }
}

// What the rows 36 to 38 ask of a control that a Set addresses, where its bytes begin at this place of the data.
#[derive(Clone, Copy)]
pub struct SetAsks {
    pub unready: bool,
    pub taken: bool,
    pub size: usize,
}

pub fn set_asks(control: Control, data: &[u8], at: usize) -> SetAsks
    ensures { result ≡ set_asks control (drop at «data».now) }
{
    let held = table::sense_of(control.selector);
    let wanted = sent_at(held, data, at);
    SetAsks {
        unready: is_unready(held, control),
        taken: takes_number(held, control, wanted),
        size: table::size(held),
    }
}

// The control as a Set leaves it.
pub fn set_to(control: Control, data: &[u8], at: usize) -> Control
    ensures { result ≡ set_to control (drop at «data».now) }
{
    let held = table::sense_of(control.selector);
    let wanted = sent_at(held, data, at);
    with_cur(control, stored_for(held, control, wanted))
}

// The refusal of a Set, 36, 37 or 38, if any: of all its controls together, whose values have so many bytes, with this wLength and so much data.
#[tactic(auto, unfolding(crate::specs::Answers::set_number))]
pub fn set_number(unready: bool, taken: bool, size: usize, bytes: u16, long: usize) -> Option<u8>
    ensures { result ≡ set_number unready taken size bytes long }
{
    if unready {
        Some(36)
    } else if bytes as usize != size || long != size {
        Some(37)
    } else if !taken {
        Some(38)
    } else {
        None
    }
}

// What the rows 35, 36 and 39 ask of a control that a Get addresses.
#[derive(Clone, Copy)]
pub struct GetAsks {
    pub lacking: bool,
    pub unready: bool,
    pub size: usize,
}

pub fn get_asks(control: Control, part: Part) -> GetAsks
    ensures { result ≡ get_asks part control }
{
    let held = table::sense_of(control.selector);
    GetAsks {
        lacking: lacks(held, part),
        unready: is_unready(held, control),
        size: table::size(held),
    }
}

// The refusal of a Get, 35, 36 or 39, if any: of all its controls together, of which so many bytes are sent to a reply with this room.
#[tactic(auto, unfolding(crate::specs::Answers::get_number))]
pub fn get_number(lacking: bool, unready: bool, sent: usize, room: usize) -> Option<u8>
    ensures { result ≡ get_number lacking unready sent room }
{
    if lacking {
        Some(35)
    } else if unready {
        Some(36)
    } else if room < sent {
        Some(39)
    } else {
        None
    }
}

// How many bytes the control's value has.
pub fn size_of(control: Control) -> usize
    ensures { result ≡ size_in control }
{
    table::size(table::sense_of(control.selector))
}

// How many bytes a Get sends: wLength, or all where that is more.
pub fn sent_of(bytes: u16, size: usize) -> usize
    ensures { result ≡ min bytes size }
{
    size.min(bytes as usize)
}

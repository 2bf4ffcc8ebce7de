#![tactic(auto)]
// Who is addressed (document 01, refusals 33 and 34; document 02, No. 2): where the controls that a request names stand in the table, from
// the lowest channel up, or what is missing; with refusal 30 in one. What this crate promises to the layer above: for every table, unit,
// channel and selector whatever, what specs/Sought.antt says.
ghost use Rattle.std.specs.Prelude.{◌≡◌, ◌+◌, ◌<◌};
ghost use Rattle.ground.specs.Pick.{pick};
ghost use Rattle.table.specs.Controls.{most_controls};
ghost use Rattle.address.specs.Addressed.{most_addressed, wants_channel};
ghost use Rattle.address.specs.AddressedLaws.{is_named};
ghost use Rattle.address.specs.Sought.{missing_by, told_of, sought_in};
ghost use Rattle.address.specs.Seats.{seated_in};

use table::{Control, Table};

// How many controls one request may address: the master's and those of sixteen channels.
pub const MOST: usize = 17;

// Where the controls that a request addresses stand: at the first `count` of `indices`, from the lowest channel up; the rest are 0.
#[derive(Clone, Copy)]
pub struct Sought {
    pub count: usize,
    pub indices: [u8; MOST],
}

// What is missing where no control is addressed, and the unit has controls or none.
fn missing(owned: bool) -> u8
    ensures { result ≡ missing_by owned }
{
    if owned { 34 } else { 33 }
}

// Whether a request of this channel and selector is about a control of that selector on the channel `of`.
#[tactic(auto, unfolding(crate::specs::Addressed::wants_channel))]
fn wants(channel: u8, selector: u8, of: u8) -> bool
    ensures { result ≡ wants_channel channel selector of }
{
    of == channel || (channel == 255 && selector != 0)
}

// The seat of a control's channel, with the control looked at: one more than its index where it is addressed, and else what it was.
// Stays: a seat with 0 for none is no Option, since the definitions seat_of and seated_in read it as a number.
#[tactic(auto, unfolding(crate::specs::AddressedLaws::is_named))]
fn seated(seat: u8, index: usize, control: Control, unit: u8, channel: u8, selector: u8) -> u8
    requires { index < most_controls }
    ensures { result ≡ pick (is_named unit channel selector control) (index + 1) seat }
{
    if control.unit == unit
        && control.selector == selector
        && wants(channel, selector, control.channel)
    {
        (index + 1) as u8
    } else {
        seat
    }
}

// What the seats tell of a unit that has controls or none: the indices from the lowest channel up, or what is missing.
// Stays: filled by a count, since only the seats that are taken have an index, and the list has no heap to grow in.
fn told(seats: &[u8; MOST], owned: bool) -> Result<Sought, u8>
    ensures { result ≡ told_of owned (seated_in seats.now most_addressed) }
{
    let mut indices = [0u8; MOST];
    let mut count = 0;
    for seat in seats {
        if 0 < *seat {
            indices[count] = *seat - 1;
            count += 1;
        }
    }
    if count == 0 {
        return Err(missing(owned));
    }
    Ok(Sought { count, indices })
}

// What a request asks of a table: 30, 33 or 34 where the table is none, or the unit or the control is missing; else who is addressed. One
// pass asks all of it, so that the table is not copied for each: tops has one more than each unit's last key, so 0 for a unit with no
// control; seats has one more than the index of each channel's addressed control, so that these come out by channel, whatever the order
// of the table.
pub fn seek(table: Table, unit: u8, channel: u8, selector: u8) -> Result<Sought, u8>
    ensures { result ≡ sought_in table unit channel selector }
{
    if table::CONTROLS < table.count {
        return Err(30);
    }
    let mut tops = [0u32; 256];
    let mut seats = [0u8; MOST];
    let mut rising = true;
    for (index, control) in table.controls[..table.count].iter().enumerate() {
        if !single::sound_control(*control) {
            return Err(30);
        }
        let own = ground::index_of(control.unit);
        let key = sound::key_of(*control);
        rising &= tops[own] <= key;
        tops[own] = key + 1;
        let of = ground::index_of(control.channel);
        seats[of] = seated(seats[of], index, *control, unit, channel, selector);
    }
    if !rising && !sound::sound_any_order(table) {
        return Err(30);
    }
    let own = ground::index_of(unit);
    told(&seats, 0 < tops[own])
}

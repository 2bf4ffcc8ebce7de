#![tactic(auto)]
// A Feature Unit's masks and the note of a control (document 01, "Controls and settings", first paragraph). What it promises to the layer
// above: a channel's mask, and each of its bits, for every descriptor whatever; and a control that is not loaded as one number, and back.
// Which controls the masks carry stands in specs/.
ghost use Rattle.std.specs.Prelude.{◌≡◌};
ghost use Rattle.masks.specs.Masks.{mask_of, bit_set};
ghost use Rattle.masks.specs.Notes.{control_from, Noted};

use scan::{byte_at, stretch};
use table::Control;

// Bit b of a mask, the low byte first.
#[tactic(auto, unfolding(crate::specs::Masks::bit_set))]
pub fn has_bit(mask: &[u8], bit: u8) -> bool
    ensures { result ≡ bit_set mask.now bit }
{
    let byte = byte_at(mask, (bit / 8) as usize);
    (byte >> (bit % 8)) % 2 == 1
}

// A channel's mask in a Feature Unit of this control size: masks of so many bytes stand from 6 on.
pub fn mask_of(d: &[u8], size: u8, channel: u8) -> &[u8]
    ensures { result.now ≡ mask_of d.now size channel }
{
    let at = 6 + channel as usize * size as usize;
    stretch(d, at, at + size as usize)
}

// What is kept of a control until the table is made: its unit, channel, selector, pins and first value, a byte each, the unit lowest.
// Stays: a number, since Noted and control_from promise it as one.
#[tactic(auto, unfolding(crate::specs::Notes::control_from))]
pub fn note_of(unit: u8, channel: u8, selector: u8, pins: u8, first: u8) -> u64
    ensures { Noted unit channel selector pins first result }
{
    u64::from_le_bytes([unit, channel, selector, pins, first, 0, 0, 0])
}

// The control of a note: not loaded, and its numbers zero but the first value.
#[tactic(auto, unfolding(crate::specs::Notes::control_from))]
pub fn control_from(note: u64) -> Control
    ensures { result ≡ control_from note }
{
    let [unit, channel, selector, pins, first, ..] = note.to_le_bytes();
    Control {
        unit,
        channel,
        selector,
        pins,
        loaded: false,
        min: 0,
        max: 0,
        res: 0,
        cur: first as u16,
    }
}

#![tactic(auto)]
// What refusal 30 asks of one control by itself (document 01, "Controls and settings"), since everything in a table is public. What
// this crate promises to the layer above: each function answers, for every control whatever, as the definitions of specs/ say; what
// they mean, in document 01's words, stands in specs/Meaning.antt.
ghost use Rattle.std.specs.Prelude.{◌≡◌};
ghost use Rattle.single.specs.Tests.{narrow_of, sound_yes_no, sound_pin, sound_ranged, sound_control};

use setting::Sort;
use table::{Control, Sense};

// The last channel that a control may have: row 30 has something against "a channel over 16".
const LAST_CHANNEL: u8 = 16;

// Whether no number of the control is too wide for one byte.
#[tactic(auto, unfolding(crate::specs::Tests::narrow_of))]
fn narrow(control: Control) -> bool
    ensures { result ≡ narrow_of control }
{
    control.min <= 255 && control.max <= 255 && control.res <= 255 && control.cur <= 255
}

#[tactic(auto, unfolding(crate::specs::Tests::sound_yes_no))]
fn sound_yes_no(control: Control) -> bool
    ensures { result ≡ sound_yes_no control }
{
    control.channel <= LAST_CHANNEL && narrow(control) && control.cur <= 1
}

#[tactic(auto, unfolding(crate::specs::Tests::sound_pin))]
fn sound_pin(control: Control) -> bool
    ensures { result ≡ sound_pin control }
{
    control.channel == 0
        && (1..=layout::MOST_PINS).contains(&control.pins)
        && narrow(control)
        && (1..=control.pins as u16).contains(&control.cur)
}

#[tactic(auto, unfolding(crate::specs::Tests::sound_ranged))]
fn sound_ranged(sort: Sort, control: Control) -> bool
    ensures { result ≡ sound_ranged sort control }
{
    let range = control.range();
    control.channel <= LAST_CHANNEL
        && (!control.loaded
            || (setting::legal(sort, range)
                && setting::fits(sort, control.cur)
                && setting::available(sort, range, control.cur)))
}

// Whether refusal 30 has nothing against this control by itself.
#[tactic(auto, unfolding(crate::specs::Tests::sound_control, crate::specs::Tests::sound_by))]
pub fn sound_control(control: Control) -> bool
    ensures { result ≡ sound_control control }
{
    match table::sense_of(control.selector) {
        Sense::Unknown => false,
        Sense::YesNo => sound_yes_no(control),
        Sense::Ranged(sort) => sound_ranged(sort, control),
        Sense::Pin => sound_pin(control),
    }
}

#![tactic(auto)]
// What a load comes to at the control that it names (document 01, "A load gives MIN, MAX, RES, CUR to one ranged control"; rows 20
// and 21). What this crate promises to the layer above: for every control, range and CUR whatever, what specs/Load.antt says.
ghost use Rattle.std.specs.Prelude.{◌≡◌};
ghost use Rattle.loads.specs.Load.{deed_of, load_range, load_on};

use setting::{Range, Sort};
use table::{Control, Sense};

// A load of a ranged control: 21, or the closest setting to CUR is stored with the range.
#[tactic(auto, unfolding(crate::specs::Load::load_range))]
fn load_range(control: Control, sort: Sort, range: Range, cur: u16) -> Result<Control, u8>
    ensures { result ≡ deed_of control (load_range control sort range cur) }
{
    if !setting::legal(sort, range) || !setting::fits(sort, cur) {
        return Err(21);
    }
    Ok(Control {
        loaded: true,
        min: range.min,
        max: range.max,
        res: range.res,
        cur: setting::closest(sort, range, cur),
        ..control
    })
}

// A load of the control: 20 where it has no range, 21, or the control with its new numbers. It is told with no table in hand: a function
// that takes the table copies it, so the control is taken out, and stored once.
#[tactic(auto, unfolding(crate::specs::Load::load_by))]
pub fn load_on(control: Control, range: Range, cur: u16) -> Result<Control, u8>
    ensures { result ≡ deed_of control (load_on control range cur) }
{
    match table::sense_of(control.selector) {
        Sense::Ranged(sort) => load_range(control, sort, range, cur),
        _ => Err(20),
    }
}

#![tactic(auto)]
// What the programs `relay` and `duet` read and show alike: the controls of a put step, a request's answer, a table of
// controls. What it promises: which table is given, how many controls it showed, and what an answer prints. What is shown
// of a table is in no contract.
ghost use Rattle.std.specs.Prelude.{◌≡◌, Some, IfOk};
ghost use Rattle.listing.specs.Answer.{answer_text};
ghost use Rattle.listing.specs.Given.{control_of, filled};
ghost use Rattle.listing.specs.Listing.{lines_of};

use std::{fmt, io};
use table::{Control, Table};

// The bytes of a control that is given.
pub const GIVEN: usize = 13;

// The control that so many bytes give.
#[tactic(auto, unfolding(crate::specs::Given::control_of))]
pub fn control_of(given: &[u8]) -> Control
    ensures { result ≡ control_of given.now }
{
    Control {
        unit: scan::byte_at(given, 0),
        channel: scan::byte_at(given, 1),
        selector: scan::byte_at(given, 2),
        pins: scan::byte_at(given, 3),
        loaded: scan::byte_at(given, 4) != 0,
        min: scan::word_at(given, 5),
        max: scan::word_at(given, 7),
        res: scan::word_at(given, 9),
        cur: scan::word_at(given, 11),
    }
}

// So many controls that the bytes give, one behind another, in the first places of a table, and all else zeros.
#[tactic(auto, unfolding(crate::specs::Given::filled))]
pub fn table_of(given: &[u8], count: u8) -> Table
    ensures { result ≡ filled given.now count }
{
    let mut table = table::empty();
    // Stays: by index and not by `chunks_exact`, since `filled` says of each index where its control stands.
    for i in 0..count as usize {
        let at = i * GIVEN;
        // a table that `table::put` hands on is copied for each control, and past the last place it puts nothing
        if i < table::CONTROLS {
            table.controls[i] = control_of(scan::stretch(given, at, at + GIVEN));
        }
    }
    table
}

// What a request is answered, which prints as the refusal's number, or as what was got or set.
#[derive(Clone, Copy, Drop)]
pub struct Answered<'a> {
    pub number: u8,
    pub is_get: bool,
    pub reply: &'a [u8],
}

impl<'a> fmt::Display for Answered<'a> {
    ghost output = { λ a. Some (answer_text a.number a.is_get a.reply.now) };

    fn fmt<W: fmt::Write>(&self, f: &mut fmt::Formatter<W>) -> fmt::Result {
        if self.number != 0 {
            write!(f, "refused {}", self.number)
        } else if self.is_get {
            write!(f, "got{}", text::HexBehind(self.reply))
        } else {
            write!(f, "set")
        }
    }
}

fn show_control(out: &impl Print, c: Control) -> io::Result<()> {
    print!(out; "{} {} {} {}", c.unit, c.channel, c.selector, c.pins)?;
    println!(out;
        " {} {} {} {} {}",
        c.loaded as u8, c.min, c.max, c.res, c.cur
    )
}

// The first controls of a table, a line each.
fn show_controls(out: &impl Print, table: Table, count: usize) -> io::Result<()> {
    for i in 0..count {
        show_control(out, table::control_at(table, i))?;
    }
    Ok(())
}

// `table C`, then, if C is at most 128, a line for each control. It answers how many these are.
#[tactic(auto, unfolding(crate::specs::Listing::lines_of))]
pub fn show(out: &impl Print, table: Table) -> io::Result<usize>
    ensures { IfOk result (λ lines. lines ≡ lines_of table) }
{
    let count = table.count;
    println!(out; "table {count}")?;
    if table::CONTROLS < count {
        return Ok(0);
    }
    show_controls(out, table, count)?;
    Ok(count)
}

#![tactic(auto)]
// The program `sheets`: pairs of sheets, and moves, over a script from standard input. A step is a kind byte, a
// two-byte length n, low byte first, and n bytes. Kind 01 is two bytes a, a bytes of the left sheet, and the right one:
// it prints what `compare` prints of the two, then `end`. Kinds 02 and 03 are two bytes m and a sheet, moved to the new
// and to the old form into m bytes lent, each of them AA: it prints `moved K` or `refused N`, then the lent bytes as
// `lend` shows them. A step that is none prints `bad step`, and the program ends.
ghost use Rattle.script.specs.Whole.{KeepsOnErr};

use legal::Form;
use mover::Moved;
use script::{Steps, Stop};
use std::io;
use std::io::Read;

// The most bytes of a step's body.
const BODY: usize = 8192;

// The most bytes of room that a step may lend.
const ROOM: usize = 2048;

// Compares the two sheets of a body.
fn compare(out: &impl Print, body: &[u8]) -> Result<(), Stop> {
    let count = scan::word_at(body, 0) as usize;
    let sheets = body.get(2..).ok_or(Stop::BadStep)?;
    let (left, right) = sheets.split_at_checked(count).ok_or(Stop::BadStep)?;
    report::compare(out, left, right)?;
    out.write_all(b"end\n")?;
    Ok(())
}

fn say_moved(out: &impl Print, moved: Moved) -> io::Result<()> {
    if moved.number == 0 {
        println!(out; "moved {}", moved.written)
    } else {
        println!(out; "refused {}", moved.number)
    }
}

fn move_into(out: &impl Print, form: Form, sheet: &[u8], room: &mut [u8]) -> Result<(), Stop> {
    let moved = mover::move_to(form, sheet, room);
    say_moved(out, moved)?;
    marks::show(out, room)?;
    Ok(())
}

// Moves the sheet of a body into as much room as it asks for.
fn move_sheet(out: &impl Print, form: Form, body: &[u8]) -> Result<(), Stop> {
    let m = scan::word_at(body, 0) as usize;
    let sheet = body.get(2..).ok_or(Stop::BadStep)?;
    let mut room = [marks::MARK; ROOM];
    let lent = room.get_mut(..m).ok_or(Stop::BadStep)?;
    move_into(out, form, sheet, lent)
}

fn step(out: &impl Print, kind: u8, body: &[u8]) -> Result<(), Stop> {
    match kind {
        1 => compare(out, body),
        2 => move_sheet(out, Form::New, body),
        3 => move_sheet(out, Form::Old, body),
        _ => Err(Stop::BadStep),
    }
}

#[derive(Drop)]
struct Sheets;

impl Steps for Sheets {
    ghost step_gives = { KeepsOnErr };

    fn step(
        &mut self,
        opening: &[u8],
        input: &mut impl Read,
        out: &impl Print,
    ) -> Result<(), Stop> {
        let n = scan::word_at(opening, 1) as usize;
        let mut body = [0u8; BODY];
        script::read_front(input, &mut body, n)?;
        step(out, scan::byte_at(opening, 0), &body[..n])
    }
}

fn main(rt: HostRuntime) -> io::Result<()> {
    Sheets.run(&mut [0u8; 3], &mut rt.stdin(), &rt)
}

#![tactic(auto)]
// The program `lend`: the reader with a sheet of another length at each step. A step from standard input is two bytes
// m, two bytes n, low byte first, and n bytes: a configuration, read with m bytes lent, each of them AA. It prints the
// answer, then the lent bytes, sixteen to a line, up to the last that is not AA, then how many stand behind it. A step
// that is none prints `bad step`, and the program ends.
ghost use Rattle.script.specs.Whole.{KeepsOnErr};

use script::{Steps, Stop};
use std::io;
use std::io::Read;
use topology::Reading;

// The most bytes of a configuration that a step may give.
const BODY: usize = 8192;

// The most bytes of a sheet that a step may ask for.
const SHEET: usize = 2048;

fn say_answer(out: &impl Print, reading: Reading) -> io::Result<()> {
    if reading.number == 0 {
        println!(out;
            "accepted {} {} {}",
            reading.control, reading.entities, reading.controls
        )
    } else {
        println!(out; "refused {} at {}", reading.number, reading.place)
    }
}

// Reads a configuration with these bytes lent.
fn read_into(out: &impl Print, config: &[u8], sheet: &mut [u8]) -> Result<(), Stop> {
    let reading = topology::read(config, sheet);
    say_answer(out, reading)?;
    marks::show(out, sheet)?;
    Ok(())
}

// Reads a configuration with m bytes lent.
fn read_with(out: &impl Print, m: usize, config: &[u8]) -> Result<(), Stop> {
    let mut sheet = [marks::MARK; SHEET];
    let lent = sheet.get_mut(..m).ok_or(Stop::BadStep)?;
    read_into(out, config, lent)
}

#[derive(Drop)]
struct Lend;

impl Steps for Lend {
    ghost step_gives = { KeepsOnErr };

    fn step(
        &mut self,
        opening: &[u8],
        input: &mut impl Read,
        out: &impl Print,
    ) -> Result<(), Stop> {
        let m = scan::word_at(opening, 0) as usize;
        let n = scan::word_at(opening, 2) as usize;
        let mut body = [0u8; BODY];
        script::read_front(input, &mut body, n)?;
        read_with(out, m, &body[..n])
    }
}

fn main(rt: HostRuntime) -> io::Result<()> {
    Lend.run(&mut [0u8; 4], &mut rt.stdin(), &rt)
}

#![tactic(auto)]
// The program `lend3` (document 02, No. 12): the reader of both editions, with a cluster buffer and a sheet of another
// length at each step. A step from standard input is two bytes m, two bytes n and two bytes k, low byte first, n bytes:
// a configuration, and k bytes: the cluster buffer. It is read with m bytes lent, each of them AA. It prints
// `accepted`, how many entities there are, or `refused N at P`, then the lent bytes as `lend` shows them. A step that
// is none prints `bad step`, and the program ends.
ghost use Rattle.script.specs.Whole.{KeepsOnErr};

use script::{Steps, Stop};
use std::io;
use std::io::Read;
use topology::Reading;

// The most bytes of a configuration, and of a cluster buffer, that a step may give.
const BODY: usize = 8192;

// The most bytes of a sheet that a step may ask for.
const SHEET: usize = 2048;

// "The answer is the sheet only": the other counts of an acceptance are 1.0's, and are not said of either edition.
fn say_answer(out: &impl Print, reading: Reading) -> io::Result<()> {
    if reading.number == 0 {
        println!(out; "accepted {}", reading.entities)
    } else {
        println!(out; "refused {} at {}", reading.number, reading.place)
    }
}

// Reads a configuration and its cluster buffer with these bytes lent.
fn read_into(
    out: &impl Print,
    config: &[u8],
    clusters: &[u8],
    sheet: &mut [u8],
) -> Result<(), Stop> {
    let reading = protocol::read(config, clusters, sheet);
    say_answer(out, reading)?;
    marks::show(out, sheet)?;
    Ok(())
}

// Reads a configuration and its cluster buffer with m bytes lent.
fn read_with(out: &impl Print, m: usize, config: &[u8], clusters: &[u8]) -> Result<(), Stop> {
    let mut sheet = [marks::MARK; SHEET];
    let lent = sheet.get_mut(..m).ok_or(Stop::BadStep)?;
    read_into(out, config, clusters, lent)
}

// The step of this configuration whose cluster buffer is the next k bytes of the input.
fn read_clusters(
    input: &mut impl Read,
    out: &impl Print,
    m: usize,
    k: usize,
    config: &[u8],
) -> Result<(), Stop> {
    let mut clusters = [0u8; BODY];
    script::read_front(input, &mut clusters, k)?;
    read_with(out, m, config, &clusters[..k])
}

#[derive(Drop)]
struct Lend3;

impl Steps for Lend3 {
    ghost step_gives = { KeepsOnErr };

    fn step(
        &mut self,
        opening: &[u8],
        input: &mut impl Read,
        out: &impl Print,
    ) -> Result<(), Stop> {
        let m = scan::word_at(opening, 0) as usize;
        let n = scan::word_at(opening, 2) as usize;
        let k = scan::word_at(opening, 4) as usize;
        let mut body = [0u8; BODY];
        script::read_front(input, &mut body, n)?;
        read_clusters(input, out, m, k, &body[..n])
    }
}

fn main(rt: HostRuntime) -> io::Result<()> {
    Lend3.run(&mut [0u8; 6], &mut rt.stdin(), &rt)
}

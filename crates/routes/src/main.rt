#![tactic(auto)]
// The program `routes` (document 02, No. 8), over a script. A step from standard input is one byte, the ID of an Output
// Terminal; two bytes m and two bytes n, low byte first; and n bytes, a configuration, whose routes are listed with m
// bytes lent, each of them AA. It prints `routes R K`, or `refused N at P` where the reader refuses, or `refused N`;
// then the lent bytes as `lend` shows them. A step that is none prints `bad step`, and the program ends.
ghost use Rattle.script.specs.Whole.{KeepsOnErr};

use script::{Steps, Stop};
use std::io;
use std::io::Read;
use upstream::Listing;

// The most bytes of a configuration that a step may give.
const BODY: usize = 8192;

// The most bytes of a list that a step may ask for.
const LIST: usize = 16384;

// The reader's refusals have a place, those behind them none.
fn say_answer(out: &impl Print, listing: Listing) -> io::Result<()> {
    if listing.number == 0 {
        println!(out; "routes {} {}", listing.routes, listing.written)
    } else if listing.number < 45 {
        println!(out; "refused {} at {}", listing.number, listing.place)
    } else {
        println!(out; "refused {}", listing.number)
    }
}

fn list_into(out: &impl Print, config: &[u8], id: u8, list: &mut [u8]) -> Result<(), Stop> {
    let listing = routing::list_routes(config, id, list);
    say_answer(out, listing)?;
    marks::show(out, list)?;
    Ok(())
}

// Lists the routes of a configuration with m bytes lent.
fn list_with(out: &impl Print, id: u8, m: usize, config: &[u8]) -> Result<(), Stop> {
    let mut list = [marks::MARK; LIST];
    let lent = list.get_mut(..m).ok_or(Stop::BadStep)?;
    list_into(out, config, id, lent)
}

#[derive(Drop)]
struct Routes;

impl Steps for Routes {
    ghost step_gives = { KeepsOnErr };

    fn step(
        &mut self,
        opening: &[u8],
        input: &mut impl Read,
        out: &impl Print,
    ) -> Result<(), Stop> {
        let m = scan::word_at(opening, 1) as usize;
        let n = scan::word_at(opening, 3) as usize;
        let mut body = [0u8; BODY];
        script::read_front(input, &mut body, n)?;
        list_with(out, scan::byte_at(opening, 0), m, &body[..n])
    }
}

fn main(rt: HostRuntime) -> io::Result<()> {
    Routes.run(&mut [0u8; 5], &mut rt.stdin(), &rt)
}

#![tactic(auto)]
// The program `way` (document 02, No. 8): its one argument is the ID of an Output Terminal as two hex digits. It reads
// a configuration from standard input and prints every route, a line each, the IDs from the output to the input as two
// capital hex digits with single spaces; or `refused N at P` where the reader refuses, or `refused N`. Anything but
// that one argument prints how it is used, and nothing is read.
ghost use Rattle.std.specs.Prelude.{◌<◌, IfSome};

use std::io;
use std::io::Read;
use upstream::Listing;

// One byte more than a configuration may have: a longer input reads as that long, and is refused for it.
const ROOM: usize = 4097;

// The bytes of the lent list: 256 routes of 32 IDs, each with 00 after the last.
const LIST: usize = 8448;

// The reader's refusals have a place, those behind them none.
fn say_refusal(out: &impl Print, listing: Listing) -> io::Result<()> {
    if listing.number < 45 {
        println!(out; "refused {} at {}", listing.number, listing.place)
    } else {
        println!(out; "refused {}", listing.number)
    }
}

// The routes, a line each: 00 ends each of them.
fn say_routes(out: &impl Print, routes: &[u8]) -> io::Result<()> {
    for route in routes.split(|id| *id == 0) {
        if !route.is_empty() {
            println!(out; "{}", text::HexLine(route))?;
        }
    }
    Ok(())
}

// Lists the routes of the configuration on standard input.
fn list_input(input: &mut impl Read, out: &impl Print, id: u8) -> io::Result<()> {
    let mut config = [0u8; ROOM];
    let mut list = [0u8; LIST];
    let count = fill::read_full(input, &mut config);
    let listing = routing::list_routes(&config[..count], id, &mut list);
    if listing.number != 0 {
        return say_refusal(out, listing);
    }
    say_routes(out, scan::stretch(&list, 0, listing.written))
}

// What a hex digit stands for, in both cases of letters.
fn digit(c: u8) -> Option<u8>
    ensures { IfSome result (λ n. n < 16) }
{
    match c {
        b'0'..=b'9' => Some(c - b'0'),
        b'A'..=b'F' => Some(c - b'A' + 10),
        b'a'..=b'f' => Some(c - b'a' + 10),
        _ => None,
    }
}

// The ID that two hex digits stand for.
fn id_of(word: &[u8; 2]) -> Option<u8> {
    let high = digit(word[0])?;
    let low = digit(word[1])?;
    Some(high * 16 + low)
}

fn main(rt: HostRuntime) -> io::Result<()> {
    let mut word = [0u8; 2];
    if fill::only_word(&rt, &mut word) == Some(2) {
        if let Some(id) = id_of(&word) {
            return list_input(&mut rt.stdin(), &rt, id);
        }
    }
    rt.write_all(b"usage: way ID\n")
}

#![tactic(auto)]
// The program `duet`: the duet box over a script of steps from standard input, each a kind byte, a two-byte length n,
// low byte first, and n bytes. Each step prints its answer; a step that is none prints `bad step`, and the program
// ends.
ghost use Rattle.script.specs.Whole.{KeepsOnErr};

use duet::{Duet, Socket};
use listing::Answered;
use request::State;
use script::{Steps, Stop};
use sides::Side;
use std::io;
use std::io::Read;

// The most bytes of a step's body.
const BODY: usize = 8192;

// The most bytes of a reply buffer that a step may ask for.
const REPLY: usize = 64;

// The bytes of the sheet that is lent at a plug-in.
const SHEET: usize = 1024;

// The bytes of what stands before a side's controls in a put step.
const FRONT: usize = 6;

// The last of the reader's numbers: a refusal up to it has a place.
const READERS: u8 = 17;

// A refusal, with its place where it is the reader's.
fn say_placed(out: &impl Print, number: u8, place: usize) -> io::Result<()> {
    if number <= READERS {
        println!(out; "refused {number} at {place}")
    } else {
        println!(out; "refused {number}")
    }
}

fn side_of(mark: u8) -> Option<Side> {
    match mark {
        0 => Some(Side::Left),
        1 => Some(Side::Right),
        _ => None,
    }
}

fn plug_in(out: &impl Print, duet: Duet, side: Side, config: &[u8]) -> Result<Duet, Stop> {
    let mut sheet = [0u8; SHEET];
    let admitted = admission::plug_in(duet, side, config, &mut sheet);
    if admitted.number == 0 {
        println!(out;
            "accepted {} {} {}",
            admitted.control, admitted.entities, admitted.controls
        )?;
    } else {
        say_placed(out, admitted.number, admitted.place)?;
    }
    Ok(admitted.duet)
}

// The answer to an unplugging or a load: its word, or the refusal.
fn say_done(out: &impl Print, number: u8, done: &str) -> io::Result<()> {
    if number == 0 {
        println!(out; "{done}")
    } else {
        println!(out; "refused {number}")
    }
}

fn unplug(out: &impl Print, duet: Duet, side: Side, body: &[u8]) -> Result<Duet, Stop> {
    if body.len() != 1 {
        return Err(Stop::BadStep);
    }
    let answer = duet::unplug(duet, side);
    say_done(out, answer.number, "unplugged")?;
    Ok(answer.duet)
}

fn load(out: &impl Print, duet: Duet, side: Side, body: &[u8]) -> Result<Duet, Stop> {
    if body.len() != 12 {
        return Err(Stop::BadStep);
    }
    let unit = scan::byte_at(body, 1);
    let channel = scan::byte_at(body, 2);
    let selector = scan::byte_at(body, 3);
    let min = scan::word_at(body, 4);
    let max = scan::word_at(body, 6);
    let res = scan::word_at(body, 8);
    let cur = scan::word_at(body, 10);
    // Stays: `duet::load` takes these seven one by one, so a struct for them would be taken apart here again.
    let answer = duet::load(duet, side, unit, channel, selector, min, max, res, cur);
    say_done(out, answer.number, "loaded")?;
    Ok(answer.duet)
}

// A request with its parts told apart: how many bytes of reply it may write, its setup and its data.
fn ask(out: &impl Print, duet: Duet, room: usize, setup: &[u8], data: &[u8]) -> Result<Duet, Stop> {
    let mut reply = [0u8; REPLY];
    let answer = duet::request(duet, setup, data, &mut reply[..room.min(REPLY)]);
    let number = answer.number;
    let is_get = scan::byte_at(setup, 0) == 0xA1;
    let reply = scan::stretch(&reply, 0, answer.written);
    println!(out;
        "{}",
        Answered {
            number,
            is_get,
            reply
        }
    )?;
    Ok(answer.duet)
}

// Stays: `relay` and `duet` have this and the above alike but for the box that they ask, which a closure of three slices
// in a library would not make plainer.
fn ask_step(out: &impl Print, duet: Duet, body: &[u8]) -> Result<Duet, Stop> {
    let room = scan::word_at(body, 0) as usize;
    let length = scan::byte_at(body, 2) as usize;
    let rest = body.get(3..).ok_or(Stop::BadStep)?;
    let (setup, data) = rest.split_at_checked(length).ok_or(Stop::BadStep)?;
    ask(out, duet, room, setup, data)
}

// A side: `empty`, or `at I` and its table.
fn show_side(out: &impl Print, socket: Socket) -> io::Result<()> {
    if !socket.plugged {
        return println!(out; "empty");
    }
    let state = socket.state;
    println!(out; "at {}", state.control)?;
    listing::show(out, state.table)?;
    Ok(())
}

fn show(out: &impl Print, duet: Duet, body: &[u8]) -> Result<Duet, Stop> {
    if !body.is_empty() {
        return Err(Stop::BadStep);
    }
    println!(out; "left")?;
    show_side(out, duet.left)?;
    println!(out; "right")?;
    show_side(out, duet.right)?;
    Ok(duet)
}

fn no_socket() -> Socket {
    let table = table::empty();
    let state = State { control: 0, table };
    Socket {
        plugged: false,
        state,
    }
}

// A side that is plugged in: its number, a count, how many controls are given, and these; and what stands behind it.
fn give_plugged(body: &[u8]) -> Option<(Socket, &[u8])> {
    let controls = scan::word_at(body, 4) as usize;
    if table::CONTROLS < controls {
        return None;
    }
    let (given, rest) = body
        .get(FRONT..)?
        .split_at_checked(controls * listing::GIVEN)?;
    let control = scan::byte_at(body, 1);
    let mut table = listing::table_of(given, controls as u8);
    table.count = scan::word_at(body, 2) as usize;
    let state = State { control, table };
    let socket = Socket {
        plugged: true,
        state,
    };
    Some((socket, rest))
}

// The first side of what is left of a put step, and what stands behind it.
fn give(body: &[u8]) -> Option<(Socket, &[u8])> {
    let (mark, rest) = body.split_first()?;
    if *mark == 0 {
        return Some((no_socket(), rest));
    }
    give_plugged(body)
}

fn put(out: &impl Print, body: &[u8]) -> Result<Duet, Stop> {
    let (left, rest) = give(body).ok_or(Stop::BadStep)?;
    let (right, rest) = give(rest).ok_or(Stop::BadStep)?;
    if !rest.is_empty() {
        return Err(Stop::BadStep);
    }
    println!(out; "put")?;
    Ok(Duet { left, right })
}

// The stretch of an entity: its bytes, or the refusal.
fn stretch(out: &impl Print, side: Side, id: u8, left: &[u8], right: &[u8]) -> io::Result<()> {
    let refusal = extent::stretch_refusal(side, id, left, right);
    if refusal.number != 0 {
        return say_placed(out, refusal.number, refusal.place);
    }
    println!(out;
        "bytes{}",
        text::HexBehind(extent::stretch(side, id, left, right))
    )
}

fn stretch_step(out: &impl Print, duet: Duet, side: Side, body: &[u8]) -> Result<Duet, Stop> {
    let id = scan::byte_at(body, 1);
    let length = scan::word_at(body, 2) as usize;
    let rest = body.get(4..).ok_or(Stop::BadStep)?;
    let (left, right) = rest.split_at_checked(length).ok_or(Stop::BadStep)?;
    stretch(out, side, id, left, right)?;
    Ok(duet)
}

// A step that names a side in its first byte.
fn side_step(out: &impl Print, duet: Duet, kind: u8, body: &[u8]) -> Result<Duet, Stop> {
    let (mark, rest) = body.split_first().ok_or(Stop::BadStep)?;
    let side = side_of(*mark).ok_or(Stop::BadStep)?;
    match kind {
        1 => plug_in(out, duet, side, rest),
        2 => load(out, duet, side, body),
        6 => unplug(out, duet, side, body),
        _ => stretch_step(out, duet, side, body),
    }
}

fn step(out: &impl Print, duet: Duet, kind: u8, body: &[u8]) -> Result<Duet, Stop> {
    match kind {
        1 | 2 | 6 | 7 => side_step(out, duet, kind, body),
        3 => ask_step(out, duet, body),
        4 => show(out, duet, body),
        5 => put(out, body),
        _ => Err(Stop::BadStep),
    }
}

// The duet box between two steps.
#[derive(Drop)]
struct DuetBox {
    duet: Duet,
}

impl Steps for DuetBox {
    ghost step_gives = { KeepsOnErr };

    fn step(
        &mut self,
        opening: &[u8],
        input: &mut impl Read,
        out: &impl Print,
    ) -> Result<(), Stop> {
        let n = scan::word_at(opening, 1) as usize;
        let mut body = [0u8; BODY];
        script::read_front(input, &mut body, n)?;
        let duet = step(out, self.duet, scan::byte_at(opening, 0), &body[..n])?;
        self.duet = duet;
        Ok(())
    }
}

fn main(rt: HostRuntime) -> io::Result<()> {
    let mut duet_box = DuetBox {
        duet: duet::empty(),
    };
    duet_box.run(&mut [0u8; 3], &mut rt.stdin(), &rt)
}

#![tactic(auto)]
// The program `relay`: the box over a script of steps from standard input, each a kind byte, a two-byte length n, low
// byte first, and n bytes. Each step prints its answer on a line of its own; a step that is none prints `bad step`, and
// the program ends.
ghost use Rattle.script.specs.Whole.{KeepsOnErr};

use listing::Answered;
use request::State;
use script::{Steps, Stop};
use std::io;
use std::io::Read;

// The most bytes of a step's body.
const BODY: usize = 8192;

// The most bytes of a reply buffer that a step may ask for.
const REPLY: usize = 64;

// The bytes of the sheet that is lent at a plug-in.
const SHEET: usize = 1024;

// What stands in a put step before its controls: the AudioControl number, and the table's count.
const FRONT: usize = 3;

fn plug_in(out: &impl Print, config: &[u8]) -> Result<State, Stop> {
    let mut sheet = [0u8; SHEET];
    let plugged = plug::plug_in(config, &mut sheet);
    let reading = plugged.reading;
    if reading.number == 0 {
        println!(out;
            "accepted {} {} {}",
            reading.control, reading.entities, reading.controls
        )?;
    } else {
        println!(out; "refused {} at {}", reading.number, reading.place)?;
    }
    Ok(plugged.state)
}

fn load(out: &impl Print, state: State, body: &[u8]) -> Result<State, Stop> {
    if body.len() != 11 {
        return Err(Stop::BadStep);
    }
    let unit = scan::byte_at(body, 0);
    let channel = scan::byte_at(body, 1);
    let selector = scan::byte_at(body, 2);
    let min = scan::word_at(body, 3);
    let max = scan::word_at(body, 5);
    let res = scan::word_at(body, 7);
    let cur = scan::word_at(body, 9);
    // Stays: `request::load` takes these seven one by one, so a struct for them would be taken apart here again.
    let answer = request::load(state, unit, channel, selector, min, max, res, cur);
    if answer.number == 0 {
        println!(out; "loaded")?;
    } else {
        println!(out; "refused {}", answer.number)?;
    }
    Ok(answer.state)
}

// A request with its parts told apart: how many bytes of reply it may write, its setup and its data.
fn ask(
    out: &impl Print,
    state: State,
    room: usize,
    setup: &[u8],
    data: &[u8],
) -> Result<State, Stop> {
    let mut reply = [0u8; REPLY];
    let answer = request::request(state, setup, data, &mut reply[..room.min(REPLY)]);
    let number = answer.number;
    let is_get = scan::byte_at(setup, 0) == 0xA1;
    let reply = scan::stretch(&reply, 0, answer.written);
    println!(out;
        "{}",
        Answered {
            number,
            is_get,
            reply
        }
    )?;
    Ok(answer.state)
}

// Stays: `relay` and `duet` have this and the above alike but for the box that they ask, which a closure of three slices
// in a library would not make plainer.
fn ask_step(out: &impl Print, state: State, body: &[u8]) -> Result<State, Stop> {
    let room = scan::word_at(body, 0) as usize;
    let length = scan::byte_at(body, 2) as usize;
    let rest = body.get(3..).ok_or(Stop::BadStep)?;
    let (setup, data) = rest.split_at_checked(length).ok_or(Stop::BadStep)?;
    ask(out, state, room, setup, data)
}

fn show(out: &impl Print, state: State, body: &[u8]) -> Result<State, Stop> {
    if !body.is_empty() {
        return Err(Stop::BadStep);
    }
    listing::show(out, state.table)?;
    Ok(state)
}

fn put(out: &impl Print, body: &[u8]) -> Result<State, Stop> {
    let given = body.get(FRONT..).ok_or(Stop::BadStep)?;
    let count = given.len() / listing::GIVEN;
    if given.len() % listing::GIVEN != 0 || table::CONTROLS < count {
        return Err(Stop::BadStep);
    }
    let control = scan::byte_at(body, 0);
    let mut table = listing::table_of(given, count as u8);
    table.count = scan::word_at(body, 1) as usize;
    println!(out; "put")?;
    Ok(State { control, table })
}

fn step(out: &impl Print, state: State, kind: u8, body: &[u8]) -> Result<State, Stop> {
    match kind {
        1 => plug_in(out, body),
        2 => load(out, state, body),
        3 => ask_step(out, state, body),
        4 => show(out, state, body),
        5 => put(out, body),
        _ => Err(Stop::BadStep),
    }
}

// The box between two steps.
#[derive(Drop)]
struct Relay {
    state: State,
}

impl Steps for Relay {
    ghost step_gives = { KeepsOnErr };

    fn step(
        &mut self,
        opening: &[u8],
        input: &mut impl Read,
        out: &impl Print,
    ) -> Result<(), Stop> {
        let n = scan::word_at(opening, 1) as usize;
        let mut body = [0u8; BODY];
        script::read_front(input, &mut body, n)?;
        let state = step(out, self.state, scan::byte_at(opening, 0), &body[..n])?;
        self.state = state;
        Ok(())
    }
}

fn main(rt: HostRuntime) -> io::Result<()> {
    let table = table::empty();
    let mut relay = Relay {
        state: State { control: 0, table },
    };
    relay.run(&mut [0u8; 3], &mut rt.stdin(), &rt)
}

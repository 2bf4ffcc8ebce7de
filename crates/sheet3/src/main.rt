#![tactic(auto)]
// The program `sheet3` (document 02, No. 12), for a person: reads a configuration of either edition from standard input
// and its cluster buffer from the file `clusters` in the folder that it runs in, lends 1,024 bytes and prints as
// `sheet` does. A file that cannot be read, or not whole, is `cannot read clusters`, and nothing else.
use std::io;
use std::io::Read;

// One byte more than a configuration may have: a longer input reads as that long, and is refused for it.
const ROOM: usize = 4097;

// As many bytes as a step of `lend3` takes. No paper bounds the buffer, a program has to: a longer file is never taken
// for a whole one.
const CLUSTERS: usize = 8192;

// The bytes of the lent sheet.
const SHEET: usize = 1024;

// The records of so many entities, a line each.
// Stays: `sheet` and `sheet3` have this alike; a library for one loop would be no plainer.
fn say_records(out: &impl Print, sheet: &[u8], entities: usize) -> io::Result<()> {
    for record in sheet.chunks(records::RECORD).take(entities) {
        println!(out; "{}", text::HexLine(record))?;
    }
    Ok(())
}

// Reads the configuration on standard input with this cluster buffer.
fn read_input(input: &mut impl Read, out: &impl Print, clusters: &[u8]) -> io::Result<()> {
    let mut config = [0u8; ROOM];
    let n = fill::read_full(input, &mut config);
    let mut sheet = [0u8; SHEET];
    let reading = protocol::read(&config[..n], clusters, &mut sheet);
    if reading.number != 0 {
        return println!(out; "refused {} at {}", reading.number, reading.place);
    }
    say_records(out, &sheet, reading.entities)
}

fn main(rt: HostRuntime) -> io::Result<()> {
    let mut clusters = [0u8; CLUSTERS];
    match fill::read_whole(&rt, "clusters", &mut clusters) {
        Some(n) => read_input(&mut rt.stdin(), &rt, &clusters[..n]),
        None => rt.write_all(b"cannot read clusters\n"),
    }
}

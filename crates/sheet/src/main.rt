#![tactic(auto)]
// The program `sheet` (document 01): reads a configuration from standard input, lends 1,024 bytes and prints each
// record as thirty-two two-digit capital hex bytes with single spaces, or `refused N at P` in decimal.
use std::io;

// One byte more than a configuration may have: a longer input reads as that long, and is refused for it.
const ROOM: usize = 4097;

// The bytes of the lent sheet.
const SHEET: usize = 1024;

// The records of so many entities, a line each.
// Stays: `sheet` and `sheet3` have this alike; a library for one loop would be no plainer.
fn say_records(out: &impl Print, sheet: &[u8], entities: usize) -> io::Result<()> {
    for record in sheet.chunks(records::RECORD).take(entities) {
        println!(out; "{}", text::HexLine(record))?;
    }
    Ok(())
}

fn main(rt: HostRuntime) -> io::Result<()> {
    let mut config = [0u8; ROOM];
    let n = fill::read_full(&mut rt.stdin(), &mut config);
    let mut sheet = [0u8; SHEET];
    let reading = topology::read(&config[..n], &mut sheet);
    if reading.number != 0 {
        return println!(rt; "refused {} at {}", reading.number, reading.place);
    }
    say_records(&rt, &sheet, reading.entities)
}

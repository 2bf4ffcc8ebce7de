#![tactic(auto)]
// The program `compare` (document 02, No. 4): reads two sheets from the files `left` and `right` in the folder that it
// runs in and prints their differences by rising ID, or `refused N`. A file that cannot be read is `cannot read left`
// or `cannot read right`, and nothing else.
use std::io;

// One byte more than a sheet may have: a longer file reads as that long, and is refused for it.
const ROOM: usize = legal::MOST_BYTES + 1;

fn say_unread(out: &impl Print, name: &str) -> io::Result<()> {
    println!(out; "cannot read {name}")
}

fn main(rt: HostRuntime) -> io::Result<()> {
    let mut left = [0u8; ROOM];
    let mut right = [0u8; ROOM];
    let Some(m) = fill::read_file(&rt, "left", &mut left) else {
        return say_unread(&rt, "left");
    };
    let Some(n) = fill::read_file(&rt, "right", &mut right) else {
        return say_unread(&rt, "right");
    };
    report::compare(&rt, &left[..m], &right[..n])?;
    Ok(())
}

#![tactic(auto)]
// The program `move` (document 02, No. 7): its one argument is the form wanted, `new` or `old`. It reads a sheet of the
// other form from standard input and prints the moved sheet's bytes, or `refused N`. Anything but that one argument
// prints how it is used, and nothing is read.
use legal::Form;
use mover::Moved;
use std::io;
use std::io::Read;

// One byte more than a sheet may have: a longer input reads as that long, and is refused for it.
const ROOM: usize = legal::MOST_BYTES + 1;

// The moved bytes, or the refusal.
fn say_moved(out: &impl Print, moved: Moved, room: &[u8]) -> io::Result<()> {
    if moved.number != 0 {
        return println!(out; "refused {}", moved.number);
    }
    out.write_all(scan::stretch(room, 0, moved.written))
}

// Moves the sheet on standard input to a form.
fn move_input(input: &mut impl Read, out: &impl Print, form: Form) -> io::Result<()> {
    let mut sheet = [0u8; ROOM];
    let mut room = [0u8; ROOM];
    let count = fill::read_full(input, &mut sheet);
    let moved = mover::move_to(form, &sheet[..count], &mut room);
    say_moved(out, moved, &room)
}

fn main(rt: HostRuntime) -> io::Result<()> {
    let mut word = [0u8; 3];
    let count = fill::only_word(&rt, &mut word).unwrap_or(0);
    match &word[..count] {
        b"new" => move_input(&mut rt.stdin(), &rt, Form::New),
        b"old" => move_input(&mut rt.stdin(), &rt, Form::Old),
        _ => rt.write_all(b"usage: move new|old\n"),
    }
}

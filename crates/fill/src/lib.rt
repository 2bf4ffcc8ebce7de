#![tactic(auto)]
// Input of which a program asks for so many bytes, for the programs. Where a reader knows which bytes it has left, the
// contracts say which of them were read; of what knows them not, as a file, they say how many bytes fit.
ghost use Rattle.std.specs.Prelude.{◌≡◌, ◌≤◌, true, length, take, IfSome};
ghost use Rattle.std.specs.Io.KnownBytes.{Consumes, IsAtEnd, Keeps};

use std::env::{Env, FillError};
use std::fs;
use std::io::Read;
use std::rt::Files;

// Reads on behind what was read: how many bytes more, 0 where the input ended or the read failed.
fn read_more<R: Read>(input: &mut R, rest: &mut [u8]) -> usize
    ensures within { result ≤ length rest.new }
    ensures taken { Consumes (R.remaining input.old) (R.remaining input.new) (take result rest.new) }
{
    input.read(rest).unwrap_or(0)
}

// Fills a buffer, or as much of it as there is input for: how many bytes were read. A read that fails ends the input.
pub fn read_full<R: Read>(input: &mut R, buffer: &mut [u8]) -> usize
    ensures within { result ≤ length buffer.new }
    ensures taken { Consumes (R.remaining input.old) (R.remaining input.new) (take result buffer.new) }
{
    let mut done: usize = 0;
    while done < buffer.len() {
        let more = read_more(input, &mut buffer[done..]);
        if more == 0 {
            return done;
        }
        done += more;
    }
    done
}

// Whether nothing is left to read. Where a read before this one failed, this one fails too, or brings what was left.
fn is_over<R: Read>(input: &mut R) -> bool
    ensures { result ≡ true
        → Keeps (R.remaining input.old) (R.remaining input.new) × IsAtEnd (R.remaining input.new) }
{
    let mut more = [0u8; 1];
    matches!(input.read(&mut more), Ok(0))
}

// Everything that is left to read: how many bytes, or nothing where there is no room for all of them, or a read fails.
// Where the room is full it asks too whether nothing is left.
fn read_all<R: Read>(input: &mut R, room: &mut [u8]) -> Option<usize>
    ensures within { IfSome result (λ count. count ≤ length room.new) }
    ensures all { IfSome result
        (λ count. Consumes (R.remaining input.old) (R.remaining input.new) (take count room.new)) }
    ensures end { IfSome result (λ _. IsAtEnd (R.remaining input.new)) }
{
    let count = read_full(input, room);
    is_over(input).then_some(count)
}

// The bytes of a file that has to be read whole, in the folder that the program runs in: how many these are, or nothing
// where the file cannot be read, or not all of it.
pub fn read_whole(files: &impl Files, name: &str, room: &mut [u8]) -> Option<usize>
    ensures { IfSome result (λ count. count ≤ length room.new) }
{
    let mut file = fs::open(files, name).ok()?;
    read_all(&mut file, room)
}

// The bytes of a file in the folder that the program runs in, as many of them as there is room for: how many these are,
// or nothing where the file cannot be read.
pub fn read_file(files: &impl Files, name: &str, room: &mut [u8]) -> Option<usize>
    ensures { IfSome result (λ count. count ≤ length room.new) }
{
    let mut file = fs::open(files, name).ok()?;
    let count = read_full(&mut file, room);
    (count == room.len() || is_over(&mut file)).then_some(count)
}

// How many bytes the one argument has; nothing where there is none, or another behind it, or more bytes than there is
// room for.
pub fn only_word(words: &impl Env, word: &mut [u8]) -> Option<usize>
    ensures { IfSome result (λ count. count ≤ length word.new) }
{
    match words.arg(2, &mut [0u8; 1]) {
        Err(FillError::NotPresent) => words.arg(1, word).ok(),
        _ => None,
    }
}

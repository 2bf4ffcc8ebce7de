#![tactic(auto)]
// What the programs show of a buffer that they lent full of marks: its bytes up to the last that is no mark, sixteen to a line, then how many
// marks are left behind it. What is printed is in no contract; how many are left is.
ghost use Rattle.std.specs.Prelude.{◌≡◌, ◌-◌, length, IfOk};
ghost use Rattle.marks.specs.Marks.{BeforeMarks, before_marks};

use std::io;

// What a lent buffer is full of: no zero, so that a byte that was left is seen apart from one that was cleared.
pub const MARK: u8 = 0xAA;

// How many bytes are shown to a line.
const LINE: usize = 16;

// How many bytes stand before the marks at the end.
fn before_marks(lent: &[u8]) -> usize
    ensures { BeforeMarks lent.now result }
{
    for last in (0..lent.len()).rev() {
        if lent[last] != MARK {
            return last + 1;
        }
    }
    0
}

// Sixteen bytes to a line, the last line as long as is left.
fn say_lines(out: &impl Print, bytes: &[u8]) -> io::Result<()> {
    for line in bytes.chunks(LINE) {
        println!(out; "{}", text::HexLine(line))?;
    }
    Ok(())
}

// Prints a lent buffer, and answers how many marks it ends in.
pub fn show(out: &impl Print, lent: &[u8]) -> io::Result<usize>
    ensures { IfOk result (λ rest. rest ≡ length lent.now - before_marks lent.now (length lent.now)) }
{
    let end = before_marks(lent);
    say_lines(out, &lent[..end])?;
    let rest = lent.len() - end;
    println!(out; "rest {rest}")?;
    Ok(rest)
}

#![tactic(auto)]
// What the programs that compare two sheets print (document 02, No. 4): a line for each difference, or `refused N`.
// What is printed is in no contract; what is answered is.
ghost use Rattle.std.specs.Prelude.{◌≡◌, IfOk};
ghost use Rattle.differences.specs.Lines.{pair_number};

use differences::Difference;
use std::io;

// A word, a space and an ID as two capital hex digits.
fn say_id(out: &impl Print, word: &[u8], id: u8) -> io::Result<()> {
    out.write_all(word)?;
    print!(out; " {}", text::Hex(id))
}

// The numbers of a mask's bits that are set, each behind a space.
fn say_bits(out: &impl Print, mask: u32) -> io::Result<()> {
    for n in 0..32u32 {
        if (mask >> n) % 2 == 1 {
            print!(out; " {n}")?;
        }
    }
    Ok(())
}

fn say_difference(out: &impl Print, difference: Difference) -> io::Result<()> {
    match difference {
        Difference::LeftOnly(id) => say_id(out, b"left", id)?,
        Difference::RightOnly(id) => say_id(out, b"right", id)?,
        Difference::Changed(id, mask) => {
            say_id(out, b"changed", id)?;
            say_bits(out, mask)?;
        }
    }
    out.write_all(b"\n")
}

fn say_differences(out: &impl Print, left: &[u8], right: &[u8]) -> io::Result<()> {
    let mut above: u8 = 0;
    while let Some(difference) = differences::next(left, right, above) {
        say_difference(out, difference)?;
        above = differences::id_of(Some(difference));
    }
    Ok(())
}

// Prints the differences of two sheets, or their refusal, whose number it answers.
pub fn compare(out: &impl Print, left: &[u8], right: &[u8]) -> io::Result<u8>
    ensures { IfOk result (λ number. number ≡ pair_number left.now right.now) }
{
    let number = differences::check(left, right);
    if number == 0 {
        say_differences(out, left, right)?;
    } else {
        println!(out; "refused {number}")?;
    }
    Ok(number)
}

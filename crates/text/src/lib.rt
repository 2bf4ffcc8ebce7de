#![tactic(auto)]
// Bytes as text, for the programs.
ghost use Rattle.std.specs.Prelude.{◌≡◌, ◌<◌, Some};
ghost use Rattle.text.specs.Hex.{digit_of, hex_pair, hex_behind, hex_line};

use std::fmt;

// A capital hex digit.
#[tactic(auto, unfolding(crate::specs::Hex::digit_of))]
fn digit(n: u8) -> u8
    requires { n < 16 }
    ensures { result ≡ digit_of n }
{
    if n < 10 {
        return 48 + n;
    }
    55 + n
}

// A byte as two capital hex digits.
#[tactic(auto, unfolding(crate::specs::Hex::hex_pair))]
pub fn hex_pair(b: u8) -> [u8; 2]
    ensures { result ≡ hex_pair b }
{
    [digit(b / 16), digit(b % 16)]
}

// A byte that prints as two capital hex digits.
#[derive(Clone, Copy, Drop)]
pub struct Hex(pub u8);

impl fmt::Display for Hex {
    ghost output = { λ h. Some (hex_pair h.0) };

    fn fmt<W: fmt::Write>(&self, f: &mut fmt::Formatter<W>) -> fmt::Result {
        let [high, low] = hex_pair(self.0);
        write!(f, "{}{}", char::from(high), char::from(low))
    }
}

// Bytes that print in hex, with a space before each.
#[derive(Clone, Copy, Drop)]
pub struct HexBehind<'a>(pub &'a [u8]);

impl<'a> fmt::Display for HexBehind<'a> {
    ghost output = { λ h. Some (hex_behind h.0.now) };

    fn fmt<W: fmt::Write>(&self, f: &mut fmt::Formatter<W>) -> fmt::Result {
        for b in self.0 {
            write!(f, " {}", Hex(*b))?;
        }
        Ok(())
    }
}

// Bytes that print in hex, with a space between one and the next.
#[derive(Clone, Copy, Drop)]
pub struct HexLine<'a>(pub &'a [u8]);

impl<'a> fmt::Display for HexLine<'a> {
    ghost output = { λ h. Some (hex_line h.0.now) };

    fn fmt<W: fmt::Write>(&self, f: &mut fmt::Formatter<W>) -> fmt::Result {
        let Some((first, rest)) = self.0.split_first() else {
            return Ok(());
        };
        write!(f, "{}{}", Hex(*first), HexBehind(rest))
    }
}

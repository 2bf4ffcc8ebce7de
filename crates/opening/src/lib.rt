#![tactic(auto)]
// How a configuration opens and is cut (document 01). What it promises to the crate above: for every slice, whether each of the rules 1 to 3 is
// kept, and the place where it is not.
ghost use Rattle.std.specs.Prelude.{◌≡◌};
ghost use Rattle.scan.specs.Cutting.{breach3};
ghost use Rattle.opening.specs.Reading.{breach1, breach2};

use scan::{byte_at, word_at};

// The most bytes that a configuration may have.
pub const MOST_BYTES: usize = 4096;

// Rule 1.
pub fn check_size(config: &[u8]) -> Option<usize>
    ensures { result ≡ breach1 config.now }
{
    if config.len() < 9 {
        return Some(0);
    }
    if MOST_BYTES < config.len() {
        return Some(0);
    }
    None
}

// Rule 2.
pub fn check_opening(config: &[u8]) -> Option<usize>
    ensures { result ≡ breach2 config.now }
{
    if byte_at(config, 0) != 9 {
        return Some(0);
    }
    if byte_at(config, 1) != 2 {
        return Some(0);
    }
    if word_at(config, 2) as usize != config.len() {
        return Some(0);
    }
    None
}

// Rule 3.
pub fn check_cutting(config: &[u8]) -> Option<usize>
    ensures { result ≡ breach3 config.now }
{
    let reached = scan::reach_of(config, 0);
    if reached == config.len() {
        return None;
    }
    Some(reached)
}

#![tactic(auto)]
// What the duet box asks of a number, a setup and a count, with no box in hand (document 02, No. 11): the two sides, whom a presented number names,
// the setup with the microphone's own number, and whether both sides' controls would be too many. What it promises: for every request, setup and
// reading whatever, exactly what specs/Sides.antt says.
ghost use Rattle.std.specs.Prelude.{◌≡◌};
ghost use Rattle.sides.specs.Sides.{addressee_by, addressee_of, own_setup, admission_by};

use ground::Refusal;
use scan::byte_at;
use setup::Asked;

// The most controls that both sides have together.
pub const TOGETHER: usize = 192;

#[derive(Clone, Copy)]
pub enum Side {
    Left,
    Right,
}

// Whom a request is for: nobody, with the number that refuses it, or a side.
// Stays: no Result, since duet's asked_on and answer_for, duets' is_for and the theorems over them speak of Addressee by its cases.
#[derive(Clone, Copy)]
pub enum Addressee {
    Nobody(u8),
    At(Side),
}

// Whom a presented number names.
#[tactic(auto, unfolding(crate::specs::Sides::addressee_by))]
fn addressee_by(number: u8) -> Addressee
    ensures { result ≡ addressee_by number }
{
    match number {
        0 => Addressee::At(Side::Left),
        1 => Addressee::At(Side::Right),
        _ => Addressee::Nobody(32),
    }
}

// Whom a request is for.
pub fn whose(asked: Asked) -> Addressee
    ensures { result ≡ addressee_of asked }
{
    match asked {
        Asked::Unknown => Addressee::Nobody(31),
        Asked::Set(target) | Asked::Get(_, target) => addressee_by(target.interface),
    }
}

// The setup with the microphone's own number for the presented one.
pub fn own_setup(setup: &[u8], number: u8) -> [u8; 8]
    ensures { result ≡ own_setup number setup.now }
{
    [
        byte_at(setup, 0),
        byte_at(setup, 1),
        byte_at(setup, 2),
        byte_at(setup, 3),
        number,
        byte_at(setup, 5),
        byte_at(setup, 6),
        byte_at(setup, 7),
    ]
}

// The refusal of a reading with so many controls where the other side has so many: the reader's, then 62; 0 and 0 for none.
pub fn judge_reading(number: u8, place: usize, controls: usize, met: usize) -> Refusal
    ensures { result ≡ admission_by number place controls met }
{
    if number != 0 {
        return Refusal { number, place };
    }
    if TOGETHER < controls {
        return Refusal {
            number: 62,
            place: 0,
        };
    }
    if TOGETHER - controls < met {
        return Refusal {
            number: 62,
            place: 0,
        };
    }
    Refusal {
        number: 0,
        place: 0,
    }
}

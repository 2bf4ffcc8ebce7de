#![tactic(auto)]
// Whether bytes are a sheet (document 02, No. 4): records one after another, each with its ID first, of one of two forms (No. 7): 16 bytes a
// record before, 32 now. What it promises to the crates above: for every slice and form, the number by which it is refused as a sheet, 0 where
// it is one. Nothing else of a record is judged.
ghost use Rattle.std.specs.Prelude.{◌≡◌, ◌%◌, length};
ghost use Rattle.legal.specs.Forms.{record_size_of};
ghost use Rattle.legal.specs.Sheet.{count_by, bad_ids_by, number_by, sheet_number};

use entities::MOST_ENTITIES;
use ground::index_of;
use records::RECORD;

// The form of a sheet's records: the one before request No. 7, and the one that the reader writes.
#[derive(Clone, Copy)]
pub enum Form {
    Old,
    New,
}

// The bytes of a record of the old form.
pub const OLD_RECORD: usize = 16;

// The most bytes of a sheet: a record for each entity that a configuration may have.
pub const MOST_BYTES: usize = MOST_ENTITIES * RECORD;

// The bytes of a record.
#[tactic(auto, unfolding(crate::specs::Forms::record_size_of))]
pub fn record_size(form: Form) -> usize
    ensures { result ≡ record_size_of form }
{
    match form {
        Form::Old => OLD_RECORD,
        Form::New => RECORD,
    }
}

// How many records stand in bytes.
// Stays: a match, and in rest another: each arm divides by a constant, as the small box, which has no divider, asks of all code.
#[tactic(auto, unfolding(crate::specs::Forms::record_size_of))]
pub fn count(s: &[u8], form: Form) -> usize
    ensures { result ≡ count_by (record_size_of form) s.now }
{
    match form {
        Form::Old => s.len() / OLD_RECORD,
        Form::New => s.len() / RECORD,
    }
}

// How many bytes stand behind the last whole record.
#[tactic(auto, unfolding(crate::specs::Forms::record_size_of))]
fn rest(s: &[u8], form: Form) -> usize
    ensures { result ≡ length s.now % record_size_of form }
{
    match form {
        Form::Old => s.len() % OLD_RECORD,
        Form::New => s.len() % RECORD,
    }
}

// Whether the ID of one of n records is zero, or that of an earlier one.
fn has_bad_id(s: &[u8], n: usize, size: usize) -> bool
    requires { n ≡ count_by size s.now }
    ensures { result ≡ bad_ids_by size s.now }
{
    let mut borne = [false; 256];
    for i in 0..n {
        let id = index_of(s[i * size]);
        if id == 0 || borne[id] {
            return true;
        }
        borne[id] = true;
    }
    false
}

// The refusal of bytes as a sheet of a form: 41 or 42, 0 where they are one.
// Stays: a number with 0 for none, no Result, for number_by of specs/Sheet is that number.
#[tactic(auto, using(crate::specs::Forms::record_size_most, crate::proofs::NumberLemmas::number_tests))]
pub fn refusal_in(s: &[u8], form: Form) -> u8
    ensures { result ≡ number_by (record_size_of form) s.now }
{
    let size = record_size(form);
    if MOST_ENTITIES * size < s.len() || rest(s, form) != 0 {
        41
    } else if has_bad_id(s, count(s, form), size) {
        42
    } else {
        0
    }
}

// .. of the form that the reader writes.
#[tactic(auto, unfolding(crate::specs::Forms::record_size_of))]
pub fn refusal(s: &[u8]) -> u8
    ensures { result ≡ sheet_number s.now }
{
    refusal_in(s, Form::New)
}

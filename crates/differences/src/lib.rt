#![tactic(auto)]
// What changed between two sheets (document 02, No. 4). What it promises to the programs above: for every two slices, the number by which they
// are refused as two sheets, 0 where they are; and, one after another by rising ID, each difference of their records and nothing else. Where
// bytes are no sheet, an ID's record is the first that bears it, and the bytes behind the last whole record are in none.
ghost use Rattle.std.specs.Prelude.{◌≡◌, Some};
ghost use Rattle.ground.specs.Numbers.{byte};
ghost use Rattle.legal.specs.Sheet.{count_in, record_at, id_at};
ghost use Rattle.differences.specs.Lines.{differs, differing, bits_set, lines_of, first_above, difference_of, id_told, pair_number};
ghost use Rattle.differences.specs.Mended.{compared_as};
ghost use Rattle.differences.specs.Lowest.{Lower, LowestAbove, Standing};

use records::RECORD;
use scan::byte_at;

// Above every ID.
const NO_ID: usize = 256;

// The kind's byte in a record, a Selector's kind, and the kind that old sheets have for one that was printed.
const KIND: usize = 1;

const SELECTOR: u8 = 5;

const PRINTED: u8 = 0x15;

// One ID's difference.
#[derive(Clone, Copy)]
pub enum Difference {
    // This ID stands on the left only.
    LeftOnly(u8),
    // This ID stands on the right only.
    RightOnly(u8),
    // This ID stands on both sides, and the bytes whose bits are set differ: bit n is byte n's.
    Changed(u8, u32),
}

// The ID of a difference, 0 where there is none.
pub fn id_of(difference: Option<Difference>) -> u8
    ensures { result ≡ id_told difference }
{
    match difference {
        None => 0,
        Some(Difference::LeftOnly(id)) => id,
        Some(Difference::RightOnly(id)) => id,
        Some(Difference::Changed(id, _)) => id,
    }
}

// Stays: an ID above every other stands for none, so that two comparisons merge the sheets; an Option would need an arm for each pair of cases.
// An ID and the first index at which it stands; NO_ID where there is none.
#[derive(Clone, Copy)]
struct Lowest {
    id: usize,
    index: usize,
}

// Stays: `pair_number`, which the contract of `report::compare` names too, is 0 where both are sheets.
// The refusal of two slices as two sheets: both of the left, then those of the right; 0 where both are sheets.
pub fn check(left: &[u8], right: &[u8]) -> u8
    ensures { result ≡ pair_number left.now right.now }
{
    let number = legal::refusal(left);
    if number != 0 {
        return number;
    }
    legal::refusal(right)
}

// Of the lowest ID so far and the one at an index: the lower, if that is above a number. Of two that are the same the first stays.
fn lower(lowest: Lowest, byte: u8, index: usize, above: usize) -> Lowest
    ensures { Lower above byte index lowest.id lowest.index result.id result.index }
{
    let id = byte as usize;
    if id <= above {
        return lowest;
    }
    if lowest.id <= id {
        return lowest;
    }
    Lowest { id, index }
}

// The lowest ID of a sheet above a number.
fn lowest_above(s: &[u8], above: usize) -> Lowest
    ensures { LowestAbove (id_at s.now) above (count_in s.now) result.id result.index }
{
    let n = s.len() / RECORD;
    let mut lowest = Lowest {
        id: NO_ID,
        index: 0,
    };
    for i in 0..n {
        lowest = lower(lowest, s[i * RECORD], i, above);
    }
    lowest
}

// A byte of a record as it is compared: 15 hex, the kind of a Selector that was printed, counts as 05 (document 02, No. 6).
fn compared(a: &[u8], n: usize) -> u8
    ensures { result ≡ compared_as n (byte a.now n) }
{
    let byte = byte_at(a, n);
    if n != KIND {
        return byte;
    }
    if byte != PRINTED {
        return byte;
    }
    SELECTOR
}

// Whether two records differ in a byte.
fn differs_at(a: &[u8], b: &[u8], n: usize) -> bool
    ensures { result ≡ differs a.now b.now n }
{
    compared(a, n) != compared(b, n)
}

// The bytes in which two records differ, a bit for each.
fn mask_of(a: &[u8], b: &[u8]) -> u32
    ensures { result ≡ bits_set (differing a.now b.now) }
{
    let mut mask: u32 = 0;
    for n in (0..RECORD).rev() {
        mask = mask * 2 + differs_at(a, b, n) as u32;
    }
    mask
}

// The bytes in which the i-th record on the left differs from the j-th on the right.
fn changes(left: &[u8], i: usize, right: &[u8], j: usize) -> u32
    requires { Standing left.now i right.now j }
    ensures { result ≡ bits_set (differing (record_at left.now i) (record_at right.now j)) }
{
    let a = i * RECORD;
    let b = j * RECORD;
    let a_end = a + RECORD;
    let b_end = b + RECORD;
    mask_of(&left[a..a_end], &right[b..b_end])
}

// The first difference whose ID is above a number; none where no ID is left.
pub fn next(left: &[u8], right: &[u8], above: u8) -> Option<Difference>
    ensures { result ≡ difference_of (first_above above (lines_of left.now right.now)) }
{
    let mut at = above as usize;
    loop {
        let l = lowest_above(left, at);
        let r = lowest_above(right, at);
        if l.id < r.id {
            return Some(Difference::LeftOnly(l.id as u8));
        }
        if r.id < l.id {
            return Some(Difference::RightOnly(r.id as u8));
        }
        if l.id == NO_ID {
            return None;
        }
        let mask = changes(left, l.index, right, r.index);
        if mask != 0 {
            return Some(Difference::Changed(l.id as u8, mask));
        }
        at = l.id;
    }
}

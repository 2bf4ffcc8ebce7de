#![tactic(auto)]
// "A mover turns an old sheet into a new one and back" (document 02, No. 7). What it promises to the programs above: for every form, sheet and
// lent room, the number by which the move is refused, 0 where it is not; the moved sheet in the front of the room, whose bytes past it stay; and
// how many bytes were written. A refusal writes nothing.
ghost use Rattle.std.specs.Prelude.{◌≡◌, ◌==◌, ◌*◌, ◌≤◌, ◌++◌, not, length, drop};
ghost use Rattle.std.specs.List.{list_any};
ghost use Rattle.legal.specs.Sheet.{most_sheet};
ghost use Rattle.mover.specs.Moving.{other_of, has_more, loses_more, loses_to, moved_to, move_number, Move};
ghost use Rattle.mover.specs.Laid.{Room, resized};

use legal::{Form, OLD_RECORD};
use records::RECORD;

// Stays: `Move`, the contract of `move_to`, tells the number, 0 of no refusal, and the bytes written.
// What a move answers: the number of its refusal, 0 where there is none, and how many bytes of the room it wrote.
#[derive(Clone, Copy)]
pub struct Moved {
    pub number: u8,
    pub written: usize,
}

// The form that a sheet is moved from.
fn other(form: Form) -> Form
    ensures { result ≡ other_of form }
{
    match form {
        Form::Old => Form::New,
        Form::New => Form::Old,
    }
}

// Whether one of some bytes is other than 00.
fn any_set(bytes: &[u8]) -> bool
    ensures { result ≡ list_any (λ x. not (x == 0)) bytes.now }
{
    bytes.iter().any(|byte| *byte != 0)
}

// Whether a record of the new form has a byte other than 00 in its last sixteen.
fn has_more(a: &[u8]) -> bool
    ensures { result ≡ has_more a.now }
{
    any_set(scan::stretch(a, OLD_RECORD, RECORD))
}

// .. whether some record has.
fn loses_more(s: &[u8]) -> bool
    ensures { result ≡ loses_more s.now }
{
    let n = s.len() / RECORD;
    for i in 0..n {
        let at = i * RECORD;
        let end = at + RECORD;
        if has_more(&s[at..end]) {
            return true;
        }
    }
    false
}

// Whether the form has no place for a byte of the sheet: the old one, for those last sixteen.
fn loses(form: Form, s: &[u8]) -> bool
    ensures { result ≡ loses_to form s.now }
{
    match form {
        Form::Old => loses_more(s),
        Form::New => false,
    }
}

// The bytes of the moved sheet.
fn moved_size(form: Form, s: &[u8]) -> usize
    requires { length s.now ≤ most_sheet }
    ensures { result ≡ length (moved_to form s.now) }
{
    legal::count(s, other(form)) * legal::record_size(form)
}

// Stays: `Move` tells this very number, 0 of no refusal, as `move_number` does, so that a Result would only be turned back into it.
// The refusal of a move with so many bytes lent.
fn number_of(form: Form, s: &[u8], room: usize) -> u8
    ensures { result ≡ move_number form s.now room }
{
    let from = other(form);
    let refused = legal::refusal_in(s, from);
    if refused != 0 {
        return refused;
    }
    if loses(form, s) {
        return 43;
    }
    if room < moved_size(form, s) {
        return 44;
    }
    0
}

// So many records of one size in the front of the room as records of another.
fn put_records(s: &[u8], from: usize, room: &mut [u8], to: usize, n: usize)
    requires { Room (length s.now) from (length room.old) to n }
    ensures { room.new ≡ resized from to s.now n ++ drop (n * to) room.old }
{
    for i in 0..n {
        let taken = i * from;
        let put = i * to;
        let taken_end = taken + from;
        let put_end = put + to;
        records::fill(&mut room[put..put_end], &s[taken..taken_end]);
    }
}

// A sheet of the other form moved to a form.
pub fn move_to(form: Form, sheet: &[u8], room: &mut [u8]) -> Moved
    ensures { Move form sheet.now room.old result.number result.written room.new }
{
    let number = number_of(form, sheet, room.len());
    if number != 0 {
        return Moved { number, written: 0 };
    }
    let from = other(form);
    let n = legal::count(sheet, from);
    put_records(
        sheet,
        legal::record_size(from),
        room,
        legal::record_size(form),
        n,
    );
    Moved {
        number,
        written: moved_size(form, sheet),
    }
}

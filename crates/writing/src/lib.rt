#![tactic(auto)]
// The writer (document 02, No. 9): "from a list of entities with all their fields, a writer makes the header and the run". What it promises to a
// caller: for every list, collection list and lent buffer, the number and the place by which the list is refused, 0 and 0 where it is not; header
// and run in the front of the buffer, whose bytes past them stay; and how many bytes were written. A refusal writes nothing. The rules are the
// reader's own, of the descriptors that would be written.
ghost use Rattle.std.specs.Prelude.{◌≡◌, ◌≤◌, length, IfErr};
ghost use Rattle.writing.specs.Writing.{most_run, list_of, descriptors_of, room_then, whole_of, wrong_told, refusal_told, size_told, LaidRun, JudgedRun, WroteBy, Writes};

use fields::Item;
use ground::Refusal;

// The most numbers of a collection list: the header's length, 8 more, is one byte.
pub const MOST_NUMBERS: usize = 247;

// The most bytes of a run: 32 descriptors of 255.
const MOST_RUN: usize = entities::MOST_ENTITIES * laying::MOST_LONG;

// Byte 1 of the header, as of every descriptor of the run.
const CLASS: u8 = 0x24;

// A list of entities: how many there are, and the first 32 of them. A longer list is refused by how many it has.
// Stays: no heap; `list_of` reads count and places, and a count past 32 is what `Rule8` refuses.
#[derive(Clone, Copy)]
pub struct EntityList {
    pub count: usize,
    pub items: [Item; 32],
}

// Stays: `Writes`, the contract of `write`, tells number and place, 0 and 0 of no refusal, and the bytes written.
// What the writer answers: the refusal's number and place, 0 and 0 where there is none, and how many bytes it wrote.
#[derive(Clone, Copy)]
pub struct Wrote {
    pub number: u8,
    pub place: usize,
    pub written: usize,
}

// What a proof needs of a large array is its length, not its bytes.
fn run_space() -> [u8; MOST_RUN]
    ensures { length result ≡ most_run }
{
    [0u8; MOST_RUN]
}

// Lays the entities of a list one behind another, and answers how many bytes they take; or the first whose layout is wrong, by index.
fn lay_out(list: EntityList, varying: &[u8], run: &mut [u8]) -> Result<usize, usize>
    requires count_bound { list.count ≤ 32 }
    requires run_len { length run.old ≡ most_run }
    ensures { LaidRun (descriptors_of (list_of varying.now list)) run.new (wrong_told result) (size_told result) }
{
    let mut at: usize = 0;
    for (i, item) in list.items[..list.count].iter().enumerate() {
        let size = laying::lay(*item, varying, run, at);
        if size == 0 {
            return Err(i);
        }
        let end = at + size;
        if layout::is_wrong(&run[at..end]) {
            return Err(i);
        }
        at = end;
    }
    Ok(at)
}

// How many bytes the run of a list takes, which is laid; or the list's refusal by the rules 8, 9, 17 and 10 to 13.
fn judge_list(list: EntityList, varying: &[u8], run: &mut [u8]) -> Result<usize, Refusal>
    requires { length run.old ≡ most_run }
    ensures run { JudgedRun (descriptors_of (list_of varying.now list)) run.new (refusal_told result) (size_told result) }
    ensures refused { IfErr result (λ refusal. refusal.number ≡ 0 → ⊥) }
{
    if list.count < 1 {
        return Err(Refusal {
            number: 8,
            place: 0,
        });
    }
    if entities::MOST_ENTITIES < list.count {
        return Err(Refusal {
            number: 8,
            place: 0,
        });
    }
    let size = match lay_out(list, varying, run) {
        Ok(size) => size,
        Err(index) => {
            return Err(Refusal {
                number: 9,
                place: index,
            });
        }
    };
    let refusal = indices::judge(scan::stretch(run, 0, size));
    if refusal.number != 0 {
        return Err(refusal);
    }
    Ok(size)
}

fn refused(number: u8, place: usize) -> Wrote
    ensures { result ≡ record { number = number; place = place; written = 0 } }
{
    Wrote {
        number,
        place,
        written: 0,
    }
}

// Puts the header, with its collection list, and the run behind it into the lent buffer: where the list is not too long, and there is room.
fn put_whole(collection: &[u8], run: &[u8], out: &mut [u8]) -> Wrote
    requires { length run.now ≤ most_run }
    ensures { WroteBy (room_then collection.now run.now (length out.old)) (whole_of collection.now run.now) out.old out.new result }
{
    let n = collection.len();
    if MOST_NUMBERS < n {
        return refused(47, 0);
    }
    let total = 8 + n + run.len();
    if out.len() < total {
        return refused(48, 0);
    }
    let [low, high] = (total as u16).to_le_bytes();
    let head = [(8 + n) as u8, CLASS, 1, 0, 1, low, high, n as u8];
    laying::paste(&head, out, 0);
    laying::paste(collection, out, 8);
    laying::paste(run, out, 8 + n);
    Wrote {
        number: 0,
        place: 0,
        written: total,
    }
}

// Writes header and run of a list, whose sources and control bytes or masks stand in a lent slice, with the collection list, into the lent buffer.
pub fn write(list: EntityList, varying: &[u8], collection: &[u8], out: &mut [u8]) -> Wrote
    ensures { Writes (list_of varying.now list) collection.now out.old out.new result }
{
    let mut run = run_space();
    match judge_list(list, varying, &mut run[..MOST_RUN]) {
        Ok(size) => put_whole(collection, scan::stretch(&run[..MOST_RUN], 0, size), out),
        Err(refusal) => refused(refusal.number, refusal.place),
    }
}

#![tactic(auto)]
// The program `writer`: lists of entities written as header and run, over a script from standard input. A step is two
// bytes m, the bytes of room (at most 9,000); two bytes k (at most 600) and k numbers, the collection list; one byte e
// and e entities. An entity is two bytes q (at most 600) and q bytes: its kind, its ID and its fields in the order of
// the descriptor; kind 15 hex is a printed Selector with a Selector's fields. The m bytes lent are each AA. It prints
// `wrote K` or `refused N at P`, then the lent bytes as `lend` shows them. Numbers of two bytes have the low byte
// first. A step that is none prints `bad step`, and the program ends.
ghost use Rattle.std.specs.Prelude.{◌≡◌, ◌≤◌, length, IfOk};
ghost use Rattle.script.specs.Whole.{KeepsOnErr};

use fields::{Item, Numbers, Span};
use script::{Steps, Stop};
use std::io;
use std::io::Read;
use writing::{EntityList, Wrote};

// The most bytes of room that a step may lend.
const ROOM: usize = 9000;

// The most numbers of a step's collection list, and the most bytes of an entity.
const MOST: usize = 600;

// An entity with the two bytes in front of it, which stand where a descriptor has its length and its type.
const SLOT: usize = 602;

// Places for 32 entities, and one for all those behind them, which the writer does not look at.
const SPACE: usize = 19866;

// The slot of an entity: the last one for all those behind the 32nd.
fn slot_of(i: usize) -> usize
    ensures { result ≤ 32 }
{
    i.min(entities::MOST_ENTITIES)
}

fn say_answer(out: &impl Print, answer: Wrote) -> io::Result<()> {
    if answer.number == 0 {
        println!(out; "wrote {}", answer.written)
    } else {
        println!(out; "refused {} at {}", answer.number, answer.place)
    }
}

// A Selector's fields, as those of a printed Selector; no entity where they are none.
fn printed(item: Item) -> Item {
    let Numbers::Selector { id, name } = item.numbers else {
        return fields::blank();
    };
    Item {
        numbers: Numbers::Printed { id, name },
        ..item
    }
}

// The entity that stands in a slot: the reader of fields skips the first two bytes of a descriptor.
fn entity_in(d: &mut [u8]) -> Item {
    if d.len() < 3 {
        return fields::blank();
    }
    if d[2] == 0x15 {
        d[2] = 5;
        return printed(fields::read(d));
    }
    fields::read(d)
}

// A part of a slot, as a part of all slots.
fn moved(span: Span, at: usize) -> Span {
    Span {
        from: span.from.wrapping_add(at),
        end: span.end.wrapping_add(at),
    }
}

fn entity_at(d: &mut [u8], at: usize) -> Item {
    let item = entity_in(d);
    Item {
        sources: moved(item.sources, at),
        controls: moved(item.controls, at),
        ..item
    }
}

// Reads an entity into a slot, and answers how many bytes it has there.
fn read_entity(input: &mut impl Read, slot: &mut [u8]) -> Result<usize, Stop>
    requires { length slot.old ≡ 602 }
    ensures { IfOk result (λ n. n ≤ 602) }
{
    script::read_front(input, slot, 2)?;
    let count = scan::word_at(slot, 0) as usize;
    script::read_front(input, &mut slot[2..], count)?;
    Ok(2 + count)
}

// Writes a list into the bytes lent, and shows them.
fn write_into(
    out: &impl Print,
    list: EntityList,
    varying: &[u8],
    numbers: &[u8],
    room: &mut [u8],
) -> Result<(), Stop> {
    let answer = writing::write(list, varying, numbers, room);
    say_answer(out, answer)?;
    marks::show(out, room)?;
    Ok(())
}

fn write_with(
    out: &impl Print,
    list: EntityList,
    varying: &[u8],
    numbers: &[u8],
    m: usize,
) -> Result<(), Stop>
    requires { m ≤ 9000 }
{
    let mut room = [marks::MARK; ROOM];
    write_into(out, list, varying, numbers, &mut room[..m])
}

// Reads the next entity into the slot of an index.
fn read_slot(input: &mut impl Read, bytes: &mut [u8], index: usize) -> Result<Item, Stop>
    requires bytes_len { length bytes.old ≡ 19866 }
    requires index_bound { index ≤ 32 }
{
    let at = index * SLOT;
    let end = at + SLOT;
    let n = read_entity(input, &mut bytes[at..end])?;
    let stop = at + n;
    Ok(entity_at(&mut bytes[at..stop], at))
}

// Reads so many entities: the first 32 are kept.
fn read_list(input: &mut impl Read, count: usize, bytes: &mut [u8]) -> Result<EntityList, Stop>
    requires { length bytes.old ≡ 19866 }
{
    let spare = fields::blank();
    let mut items = [spare; 32];
    for i in 0..count {
        let item = read_slot(input, bytes, slot_of(i))?;
        if i < entities::MOST_ENTITIES {
            items[i] = item;
        }
    }
    Ok(EntityList { count, items })
}

// Reads so many entities and writes them.
fn write_list(
    input: &mut impl Read,
    out: &impl Print,
    count: usize,
    numbers: &[u8],
    m: usize,
) -> Result<(), Stop>
    requires { m ≤ 9000 }
{
    let mut bytes = [0u8; SPACE];
    let list = read_list(input, count, &mut bytes)?;
    write_with(out, list, &bytes, numbers, m)
}

#[derive(Drop)]
struct Writer;

impl Steps for Writer {
    ghost step_gives = { KeepsOnErr };

    fn step(
        &mut self,
        opening: &[u8],
        input: &mut impl Read,
        out: &impl Print,
    ) -> Result<(), Stop> {
        let m = scan::word_at(opening, 0) as usize;
        if ROOM < m {
            return Err(Stop::BadStep);
        }
        let mut counted = [0u8; 2];
        script::read_front(input, &mut counted, 2)?;
        let k = scan::word_at(&counted, 0) as usize;
        let mut numbers = [0u8; MOST];
        script::read_front(input, &mut numbers, k)?;
        let mut count = [0u8; 1];
        script::read_front(input, &mut count, 1)?;
        write_list(input, out, count[0] as usize, &numbers[..k], m)
    }
}

fn main(rt: HostRuntime) -> io::Result<()> {
    Writer.run(&mut [0u8; 2], &mut rt.stdin(), &rt)
}

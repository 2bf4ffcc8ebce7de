#![tactic(auto)]
// Layer 3: the box. The controls of a microphone are loaded, and class requests are answered (document 01, "What the box does"). What this crate
// promises: for every state whatever, every load, setup, data and reply, exactly what specs/Load.antt and specs/Request.antt say; a refused load or
// request leaves state and reply as they stood.
ghost use Rattle.std.specs.Prelude.{◌≡◌, length};
ghost use Rattle.answers.specs.Answers.{set_of, get_of};
ghost use Rattle.request.specs.Outcome.{refusal, deed_answer, answer_of, Answered};
ghost use Rattle.request.specs.Load.{load_of};
ghost use Rattle.request.specs.Stored.{indices_in, Seated, outcome_of};
ghost use Rattle.request.specs.Request.{elsewhere_by, barred_by, if_any, request_of};

use address::Sought;
use setting::Range;
use setup::{Asked, Part, Target};
use table::{Control, Table};

// The box's state: the AudioControl number and the table of controls.
#[derive(Clone, Copy)]
pub struct State {
    pub control: u8,
    pub table: Table,
}

// What a load or a request comes to: 0 or the number of the refusal, how many bytes of the reply were written, and the state after it.
// Stays: 0 beside a refusal is no Result, since answer_of and the theorems over it speak of number, written and state side by side.
#[derive(Clone, Copy)]
pub struct Answer {
    pub number: u8,
    pub written: usize,
    pub state: State,
}

fn refused(state: State, number: u8) -> Answer
    ensures { result ≡ refusal state number }
{
    Answer {
        number,
        written: 0,
        state,
    }
}

// The control as the deed leaves it is stored where it stands.
fn done(state: State, index: usize, deed: Result<Control, u8>) -> Answer
    ensures { result ≡ deed_answer state index deed }
{
    match deed {
        Err(number) => refused(state, number),
        Ok(control) => Answer {
            number: 0,
            written: 0,
            state: State {
                control: state.control,
                table: table::put(state.table, index, control),
            },
        },
    }
}

// Gives MIN, MAX, RES and CUR to one ranged control.
pub fn load(
    state: State,
    unit: u8,
    channel: u8,
    selector: u8,
    min: u16,
    max: u16,
    res: u16,
    cur: u16,
) -> Answer
    ensures { result ≡ answer_of state (load_of state unit channel selector (record { min = min; max = max; res = res }) cur) }
{
    if !sound::sound(state.table) {
        return refused(state, 30);
    }
    let range = Range { min, max, res };
    match table::find(state.table, unit, channel, selector) {
        None => refused(state, 20),
        Some((index, control)) => done(state, index, loads::load_on(control, range, cur)),
    }
}

// 32, if the target is not on the AudioControl interface.
#[tactic(auto, unfolding(crate::specs::Request::elsewhere_by))]
fn elsewhere(target: Target, number: u8) -> Option<u8>
    ensures { result ≡ if_any (elsewhere_by target number) }
{
    if target.interface == number {
        None
    } else {
        Some(32)
    }
}

// 31 or 32, if one is given: no table decides them.
fn bar(asked: Asked, number: u8) -> Option<u8>
    ensures { result ≡ if_any (barred_by asked number) }
{
    match asked {
        Asked::Unknown => Some(31),
        Asked::Set(target) | Asked::Get(_, target) => elsewhere(target, number),
    }
}

// A Set of the controls that were sought: 36, 37, 38, or their new values. All are asked before one is stored, so that nothing of a refused
// Set is stored. The two passes are one function, since one that takes the state copies it.
fn set_all(state: State, sought: Sought, bytes: u16, data: &[u8]) -> Answer
    requires { Seated sought }
    ensures { result ≡ answer_of state (outcome_of state.table (indices_in sought) (λ cs. set_of cs bytes «data».now)) }
{
    let places = &sought.indices[..sought.count];
    let mut table = state.table;
    let mut unready = false;
    let mut taken = true;
    let mut size = 0;
    for &place in places {
        let asks = answers::set_asks(table.controls[place as usize], data, size);
        unready |= asks.unready;
        taken &= asks.taken;
        size += asks.size;
    }
    let denied = answers::set_number(unready, taken, size, bytes, data.len());
    if let Some(number) = denied {
        return refused(state, number);
    }
    let mut at = 0;
    for &place in places {
        let control = table.controls[place as usize];
        table.controls[place as usize] = answers::set_to(control, data, at);
        at += answers::size_of(control);
    }
    Answer {
        number: 0,
        written: 0,
        state: State {
            control: state.control,
            table,
        },
    }
}

// A Get of the controls that were sought: 35, 36, 39, or their bytes are written. The state is put together again of its parts, which saves
// a copy of the table.
fn get_all(state: State, sought: Sought, part: Part, bytes: u16, reply: &mut [u8]) -> Answer
    requires { Seated sought }
    ensures { Answered state (outcome_of state.table (indices_in sought) (λ cs. get_of part cs bytes (length reply.old))) reply.old result reply.new }
{
    let places = &sought.indices[..sought.count];
    let table = state.table;
    let mut lacking = false;
    let mut unready = false;
    let mut size = 0;
    for &place in places {
        let asks = answers::get_asks(table.controls[place as usize], part);
        lacking |= asks.lacking;
        unready |= asks.unready;
        size += asks.size;
    }
    let end = answers::sent_of(bytes, size);
    if let Some(number) = answers::get_number(lacking, unready, end, reply.len()) {
        return refused(state, number);
    }
    let mut written = 0;
    for &place in places {
        let control = table.controls[place as usize];
        let value = answers::part_of(part, control);
        written = deed::write(value, answers::size_of(control), written, end, reply);
    }
    Answer {
        number: 0,
        written,
        state: State {
            control: state.control,
            table,
        },
    }
}

// Answers one class request: data is what the host sends with a Set, reply the lent buffer of a Get. The search makes refusal 30's test and
// finds who is addressed in one pass, so it goes before 31 and 32, and its 33 or 34 come behind them.
pub fn request(state: State, setup: &[u8], data: &[u8], reply: &mut [u8]) -> Answer
    ensures { Answered state (request_of state setup.now «data».now (length reply.old)) reply.old result reply.new }
{
    let asked = setup::read(setup);
    let target = setup::target_of(asked);
    let barred = bar(asked, state.control);
    let sought = match address::seek(state.table, target.unit, target.channel, target.selector) {
        Ok(sought) => sought,
        Err(number) if number == 30 => return refused(state, 30),
        Err(number) => return refused(state, barred.unwrap_or(number)),
    };
    if let Some(number) = barred {
        return refused(state, number);
    }
    match asked {
        Asked::Unknown => refused(state, 31),
        Asked::Set(target) => set_all(state, sought, target.bytes, data),
        Asked::Get(part, target) => get_all(state, sought, part, target.bytes, reply),
    }
}

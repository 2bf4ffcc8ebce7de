#![tactic(auto)]
// The duet box (document 02, No. 11): two microphones behind one laptop. It stands on the request layer's promises: a load and a request are handed
// down to one side's state; of a table only its count is read, and 30's test asked. What this crate promises: for every box whatever, every side,
// state, load, setup, data and reply, exactly what specs/Coming.antt and specs/Asking.antt say; a refusal leaves box and reply as they stood. How a
// microphone is read and let in is crate `admission`.
ghost use Rattle.std.specs.Prelude.{◌≡◌};
ghost use Rattle.duet.specs.Box.{other_side, socket_of, with_socket, empty_socket, empty_duet, controls_on, sound_socket, sound_beside, sound_duet};
ghost use Rattle.duet.specs.Coming.{vacancy_of, occupied, refusal, unplug_answer};
ghost use Rattle.duet.specs.Asking.{occupant_of, load_in, answer_in, answered_by, HandedDown, AnsweredIn};

use request::State;
use sides::{Addressee, Side};

// Stays: `SoundBox` of crate `duets` names both fields, and the put step of program `duet` writes them, an empty side's state too.
// One side: whether a microphone is plugged in, and the request layer's state of it.
#[derive(Clone, Copy)]
pub struct Socket {
    pub plugged: bool,
    pub state: State,
}

// Stays: the theorems of crate `duets` and the program `duet` name `left` and `right`.
// The box.
#[derive(Clone, Copy)]
pub struct Duet {
    pub left: Socket,
    pub right: Socket,
}

// Stays: `answer_in`, the contracts' word, and `StepsTold` of crate `duets` name its fields: a refusal has the box too.
// What an unplugging, a load or a request comes to: 0 or the number of the refusal, how many bytes of the reply were written, and the box.
#[derive(Clone, Copy)]
pub struct Answer {
    pub number: u8,
    pub written: usize,
    pub duet: Duet,
}

fn empty_socket() -> Socket
    ensures { result ≡ empty_socket }
{
    Socket {
        plugged: false,
        state: State {
            control: 0,
            table: table::empty(),
        },
    }
}

// The box with no microphone.
pub fn empty() -> Duet
    ensures { result ≡ empty_duet }
{
    let socket = empty_socket();
    Duet {
        left: socket,
        right: socket,
    }
}

fn other(side: Side) -> Side
    ensures { result ≡ other_side side }
{
    match side {
        Side::Left => Side::Right,
        Side::Right => Side::Left,
    }
}

fn socket_of(duet: Duet, side: Side) -> Socket
    ensures { result ≡ socket_of duet side }
{
    match side {
        Side::Left => duet.left,
        Side::Right => duet.right,
    }
}

fn with_socket(duet: Duet, side: Side, socket: Socket) -> Duet
    ensures { result ≡ with_socket duet side socket }
{
    match side {
        Side::Left => Duet {
            left: socket,
            ..duet
        },
        Side::Right => Duet {
            right: socket,
            ..duet
        },
    }
}

#[tactic(auto, unfolding(crate::specs::Box::controls_on))]
fn controls_on(socket: Socket) -> usize
    ensures { result ≡ controls_on socket }
{
    if socket.plugged {
        socket.state.table.count
    } else {
        0
    }
}

// Whether 30 has nothing against a side's table.
#[tactic(auto, unfolding(crate::specs::Box::sound_socket))]
fn sound_socket(socket: Socket) -> bool
    ensures { result ≡ sound_socket socket }
{
    !socket.plugged || sound::sound(socket.state.table)
}

// Whether 30 has nothing against the rest of the box: the other side's table, and how many controls there are in all.
fn sound_beside(duet: Duet, side: Side) -> bool
    ensures { result ≡ sound_beside duet side }
{
    let own = controls_on(socket_of(duet, side));
    let beside = socket_of(duet, other(side));
    own <= sides::TOGETHER && controls_on(beside) <= sides::TOGETHER - own && sound_socket(beside)
}

// Whether 30 has nothing against the box.
fn sound_duet(duet: Duet) -> bool
    ensures { result ≡ sound_duet duet }
{
    sound_beside(duet, Side::Left) && sound_socket(duet.left)
}

fn refused(duet: Duet, number: u8) -> Answer
    ensures { result ≡ refusal duet number }
{
    Answer {
        number,
        written: 0,
        duet,
    }
}

// What a microphone meets that is to come to a side: how many controls the other side has; or the number that refuses it, 30 or 61.
#[tactic(auto, unfolding(crate::specs::Coming::vacancy_of))]
pub fn vacancy_on(duet: Duet, side: Side) -> Result<usize, u8>
    ensures { result ≡ vacancy_of duet side }
{
    if !sound_duet(duet) {
        return Err(30);
    }
    if socket_of(duet, side).plugged {
        return Err(61);
    }
    Ok(controls_on(socket_of(duet, other(side))))
}

// The box with a microphone's state on a side: what is left of a plug-in where nothing refuses it.
pub fn occupy(duet: Duet, side: Side, state: State) -> Duet
    ensures { result ≡ occupied duet side state }
{
    let socket = Socket {
        plugged: true,
        state,
    };
    with_socket(duet, side, socket)
}

// The microphone of a side is taken out; its room is free.
pub fn unplug(duet: Duet, side: Side) -> Answer
    ensures { result ≡ unplug_answer duet side }
{
    if !sound_duet(duet) {
        return refused(duet, 30);
    }
    if !socket_of(duet, side).plugged {
        return refused(duet, 63);
    }
    Answer {
        number: 0,
        written: 0,
        duet: with_socket(duet, side, empty_socket()),
    }
}

// The state of the microphone on a side; or 30, of the rest of the box, or 63.
#[tactic(auto, unfolding(crate::specs::Asking::occupant_of))]
fn occupant(duet: Duet, side: Side) -> Result<State, u8>
    ensures { result ≡ occupant_of duet side }
{
    if !sound_beside(duet, side) {
        return Err(30);
    }
    let socket = socket_of(duet, side);
    if socket.plugged {
        Ok(socket.state)
    } else {
        Err(63)
    }
}

// What the request layer answers on a side, and the box with its state.
fn answered(duet: Duet, side: Side, answer: request::Answer) -> Answer
    ensures { result ≡ answered_by duet side answer }
{
    Answer {
        number: answer.number,
        written: answer.written,
        duet: occupy(duet, side, answer.state),
    }
}

// Gives MIN, MAX, RES and CUR to one ranged control of a side. The request layer's load makes refusal 30's test of that side's table, so that here
// it is made of the rest of the box: the other's table, and the count of both.
pub fn load(
    duet: Duet,
    side: Side,
    unit: u8,
    channel: u8,
    selector: u8,
    min: u16,
    max: u16,
    res: u16,
    cur: u16,
) -> Answer
    ensures { result ≡ answer_in duet side (load_in duet side unit channel selector (record { min = min; max = max; res = res }) cur) }
{
    match occupant(duet, side) {
        Err(number) => refused(duet, number),
        Ok(state) => answered(
            duet,
            side,
            request::load(state, unit, channel, selector, min, max, res, cur),
        ),
    }
}

// A request for a side: the microphone's own number is put in, and it is handed down.
fn hand_down(duet: Duet, side: Side, setup: &[u8], data: &[u8], reply: &mut [u8]) -> Answer
    ensures { HandedDown duet side setup.now «data».now reply.old result reply.new }
{
    match occupant(duet, side) {
        Err(number) => refused(duet, number),
        Ok(state) => {
            let own = sides::own_setup(setup, state.control);
            answered(duet, side, request::request(state, &own, data, reply))
        }
    }
}

// Answers one class request: by the presented number, of the left microphone or of the right.
pub fn request(duet: Duet, setup: &[u8], data: &[u8], reply: &mut [u8]) -> Answer
    ensures { AnsweredIn duet setup.now «data».now reply.old result reply.new }
{
    match sides::whose(setup::read(setup)) {
        Addressee::Nobody(_) if !sound_duet(duet) => refused(duet, 30),
        Addressee::Nobody(number) => refused(duet, number),
        Addressee::At(side) => hand_down(duet, side, setup, data, reply),
    }
}

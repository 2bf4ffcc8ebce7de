#![tactic(auto)]
// What a setup asks (document 01, row 31; 000, "Audio Control requests"). What this crate promises to the layer above: for every
// setup whatever, whether it asks a Set, a Get of a part, or nothing that the box answers; and of which interface, unit, channel and selector.
ghost use Rattle.std.specs.Prelude.{◌≡◌};
ghost use Rattle.setup.specs.Setup.{asked_by, asked_of, target_in};

use scan::word_at;

// What a request is about: the low and the high byte of wIndex, the low and the high byte of wValue, and wLength.
#[derive(Clone, Copy, Default)]
pub struct Target {
    pub interface: u8,
    pub unit: u8,
    pub channel: u8,
    pub selector: u8,
    pub bytes: u16,
}

// Which number of a control a Get asks for.
#[derive(Clone, Copy)]
pub enum Part {
    Cur,
    Min,
    Max,
    Res,
}

// What a setup asks.
// Stays: Unknown is no None, since request's doing_of and barred_by, sides' addressee_of and the theorems over them speak of Asked by its cases.
#[derive(Clone, Copy)]
pub enum Asked {
    Unknown,
    Set(Target),
    Get(Part, Target),
}

// What type and request ask of the target: 21/01 is a Set, A1/81 to A1/84 are Gets.
#[tactic(auto, unfolding(crate::specs::Setup::asked_by, crate::specs::Setup::get_asked))]
fn asked_by(target: Target, kind: u8, code: u8) -> Asked
    ensures { result ≡ asked_by target kind code }
{
    match (kind, code) {
        (0x21, 1) => Asked::Set(target),
        (0xA1, 0x81) => Asked::Get(Part::Cur, target),
        (0xA1, 0x82) => Asked::Get(Part::Min, target),
        (0xA1, 0x83) => Asked::Get(Part::Max, target),
        (0xA1, 0x84) => Asked::Get(Part::Res, target),
        _ => Asked::Unknown,
    }
}

// What a setup asks; one of another length than 8 asks nothing.
pub fn read(setup: &[u8]) -> Asked
    ensures { result ≡ asked_of setup.now }
{
    if setup.len() != 8 {
        return Asked::Unknown;
    }
    let target = Target {
        interface: setup[4],
        unit: setup[5],
        channel: setup[2],
        selector: setup[3],
        bytes: word_at(setup, 6),
    };
    asked_by(target, setup[0], setup[1])
}

// What the setup is about; zeros where it asks nothing.
pub fn target_of(asked: Asked) -> Target
    ensures { result ≡ target_in asked }
{
    match asked {
        Asked::Unknown => Target::default(),
        Asked::Set(target) | Asked::Get(_, target) => target,
    }
}

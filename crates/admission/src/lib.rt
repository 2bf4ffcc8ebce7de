#![tactic(auto)]
// A microphone is plugged in on a side of the duet box (document 02, No. 11). 62, that both sides' controls would be too many, comes behind the
// reader's refusals and must leave the sheet: so the reader is lent a draft, and the sheet is written from it where the microphone is let in. What
// this crate promises: for every box whatever, every side, configuration and sheet, exactly what specs/Plugging.antt says; a refusal leaves box and
// sheet as they stood.
ghost use Rattle.std.specs.Prelude.{◌≡◌, ◌++◌, ◌*◌, ◌≤◌, min, length, take, drop};
ghost use Rattle.records.specs.Records.{record_size};
ghost use Rattle.records.specs.Sheet.{whole_sheet};
ghost use Rattle.admission.specs.Plugging.{turned_away, PlugsIn};
ghost use Rattle.admission.specs.Admission.{welcomed, Admits};
ghost use Rattle.admission.specs.Drafts.{Drafted};

use duet::Duet;
use ground::Refusal;
use plug::Plugged;
use request::State;
use sides::Side;

// The bytes of a sheet that holds the records of every configuration.
const SHEET: usize = entities::MOST_ENTITIES * records::RECORD;

// Stays: `PlugsIn`, the contract of `plug_in`, tells number and place, 0 and 0 of no refusal, beside the counts and the box.
// What a plug-in comes to: 0 or the number of the refusal, with its place where it is the reader's; of an acceptance the microphone's own
// AudioControl number and the counts of its entities and controls; and the box after it.
#[derive(Clone, Copy)]
pub struct Admitted {
    pub number: u8,
    pub place: usize,
    pub control: u8,
    pub entities: usize,
    pub controls: usize,
    pub duet: Duet,
}

// What comes of a microphone that is let in: the counts of its entities and controls, and the request layer's state of it.
#[derive(Clone, Copy)]
struct Admission {
    entities: usize,
    controls: usize,
    state: State,
}

// How many bytes of a draft a sheet of that many stands for.
fn draft_room(bytes: usize) -> usize
    ensures { result ≡ min bytes whole_sheet }
{
    bytes.min(SHEET)
}

// So many records of a draft written to the front of the sheet.
fn copy_records(draft: &[u8], count: usize, sheet: &mut [u8])
    requires record_size_in_bounds { count * record_size ≤ length draft.now }
    requires record_size_in_bounds_2 { count * record_size ≤ length sheet.old }
    ensures { sheet.new ≡ take (count * record_size) draft.now ++ drop (count * record_size) sheet.old }
{
    let n = count * records::RECORD;
    sheet[..n].copy_from_slice(&draft[..n]);
}

// A microphone read with a draft lent in the place of a sheet of that many bytes.
fn read_draft(config: &[u8], bytes: usize, draft: &mut [u8]) -> Plugged
    requires { length draft.old ≡ whole_sheet }
    ensures { Drafted config.now (min bytes whole_sheet) draft.old result draft.new }
{
    let room = draft_room(bytes);
    plug::plug_in(config, &mut draft[..room])
}

// A microphone read into the draft, and its records written to the sheet where it is let in; else the reader's refusal, or 62.
fn admit_by(
    config: &[u8],
    met: usize,
    draft: &mut [u8],
    sheet: &mut [u8],
) -> Result<Admission, Refusal>
    requires { length draft.old ≡ whole_sheet }
    ensures { Admits met config.now sheet.old result sheet.new }
{
    let plugged = read_draft(config, sheet.len(), draft);
    let reading = plugged.reading;
    let refusal = sides::judge_reading(reading.number, reading.place, reading.controls, met);
    if refusal.number != 0 {
        return Err(refusal);
    }
    copy_records(draft, reading.entities, sheet);
    Ok(Admission {
        entities: reading.entities,
        controls: reading.controls,
        state: plugged.state,
    })
}

// A microphone read for a side, where the other side has so many controls.
fn admit(config: &[u8], met: usize, sheet: &mut [u8]) -> Result<Admission, Refusal>
    ensures { Admits met config.now sheet.old result sheet.new }
{
    let mut draft = [0u8; SHEET];
    admit_by(config, met, &mut draft, sheet)
}

// A plug-in that is refused leaves the box as it stood.
fn turned_away(duet: Duet, number: u8, place: usize) -> Admitted
    ensures { result ≡ turned_away duet number place }
{
    Admitted {
        number,
        place,
        control: 0,
        entities: 0,
        controls: 0,
        duet,
    }
}

// The answer where a microphone is let in.
fn welcome(duet: Duet, side: Side, admission: Admission) -> Admitted
    ensures { result ≡ welcomed duet side admission }
{
    Admitted {
        number: 0,
        place: 0,
        control: admission.state.control,
        entities: admission.entities,
        controls: admission.controls,
        duet: duet::occupy(duet, side, admission.state),
    }
}

// Plugs a microphone in on a side.
pub fn plug_in(duet: Duet, side: Side, config: &[u8], sheet: &mut [u8]) -> Admitted
    ensures { PlugsIn duet side config.now sheet.old result sheet.new }
{
    let met = match duet::vacancy_on(duet, side) {
        Ok(met) => met,
        Err(number) => return turned_away(duet, number, 0),
    };
    match admit(config, met, sheet) {
        Ok(admission) => welcome(duet, side, admission),
        Err(refusal) => turned_away(duet, refusal.number, refusal.place),
    }
}

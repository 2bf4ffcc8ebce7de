#![tactic(auto)]
// Layer 3, on what the reader promises: a microphone is plugged in (document 01, "What the box does"). What this crate promises: for every
// configuration and sheet exactly what specs/Plugged.antt says.
ghost use Rattle.plug.specs.Plugged.{PluggedIn};

use request::State;
use topology::Reading;

// What a plug-in comes to: the reading of the microphone's configuration, and the state.
#[derive(Clone, Copy)]
pub struct Plugged {
    pub reading: Reading,
    pub state: State,
}

// Plugs a microphone in: the reader reads its configuration and writes the lent sheet, and the state is what it answers.
pub fn plug_in(config: &[u8], sheet: &mut [u8]) -> Plugged
    ensures { PluggedIn config.now sheet.old result sheet.new }
{
    let reading = topology::read(config, sheet);
    let control = reading.control;
    let table = reading.table;
    let state = State { control, table };
    Plugged { reading, state }
}

#![tactic(auto)]
// The reader of both editions (document 02, No. 12): "An AudioControl interface whose protocol byte (offset 7) is 0x30 is read by source document 001; all
// others as now." What it promises to the layer above: for every configuration, every cluster buffer and every lent sheet the answer of the edition that
// the protocol byte names, in the form of the 1.0 reader's.
ghost use Rattle.std.specs.Prelude.{◌≡◌, length};
ghost use Rattle.protocol.specs.Protocol.{protocol_of, sheet_reading, either_reading, either_sheet};

use scan::byte_at;
use search::Want;
use third::SheetAnswer;
use topology::Reading;

// The protocol byte of the 3.0 edition.
const VERSION_3: u8 = 0x30;

// The protocol byte of the AudioControl interface; 0 where there is none.
fn protocol_of(config: &[u8]) -> u8
    ensures { result ≡ protocol_of config.now }
{
    let control = search::find(config, 0, Want::Audio(1));
    match control {
        Some(place) => byte_at(scan::descriptor_at(config, place), 7),
        None => 0,
    }
}

// The answer of the 3.0 edition in the form of the 1.0 reader's: "the sheet only", so that interface number, count of controls and table are those
// of a refusal.
fn reading(answer: SheetAnswer) -> Reading
    ensures { result ≡ sheet_reading answer }
{
    Reading {
        number: answer.number,
        place: answer.place,
        control: 0,
        entities: answer.entities,
        controls: 0,
        table: table::empty(),
    }
}

// Reads one configuration, and by the 3.0 edition its cluster buffer, into a lent sheet.
pub fn read(config: &[u8], clusters: &[u8], sheet: &mut [u8]) -> Reading
    ensures value { result ≡ either_reading config.now clusters.now (length sheet.old) }
    ensures sheet_after { sheet.new ≡ either_sheet config.now clusters.now sheet.old }
{
    if protocol_of(config) == VERSION_3 {
        return reading(third::read(config, clusters, sheet));
    }
    topology::read(config, sheet)
}

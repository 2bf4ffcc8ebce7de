#![tactic(auto)]
// The interface descriptors of a configuration (document 01, rule 4). What it promises to the crate above: the lowest number of the rules 1 to 4
// that a configuration breaks, with its place; and where the AudioControl interface stands, if it keeps them.
ghost use Rattle.std.specs.Prelude.{◌≡◌, true, ◌≤◌, ◌<◌, length};
ghost use Rattle.ground.specs.Pick.{pick};
ghost use Rattle.ground.specs.Refuse.{none, refuse};
ghost use Rattle.ground.specs.Told.{told};
ghost use Rattle.scan.specs.Search.{searched};
ghost use Rattle.search.specs.Want.{is_interface, is_audio};
ghost use Rattle.opening.specs.Rules1and2.{most_bytes};
ghost use Rattle.interfaces.specs.Reading.{breach4, control_at, wrong_interface, location_of};
ghost use Rattle.interfaces.specs.Tops.{control_before, Tops, Repeats, Looked};
ghost use Rattle.interfaces.specs.Pairs.{most_interfaces, Pair, Noted, Pairs};

use ground::{Refusal, index_of, refuse_at, refuse_unless};
use opening::{check_cutting, check_opening, check_size};
use scan::{byte_at, end_of};
use search::{is_audio, is_interface};

// The most interface descriptors, of 9 bytes each, that a configuration may hold.
const MOST_INTERFACES: usize = 455;

// The number and the alternate setting of an interface descriptor, as one number.
fn pair_of(i: &[u8]) -> u16
    ensures { Pair i.now result }
{
    byte_at(i, 2) as u16 * 256 + byte_at(i, 3) as u16
}

// The pair of an interface descriptor, put behind the first pairs; how many there are then.
fn note_pair(i: &[u8], pairs: &mut [u16; MOST_INTERFACES], count: usize) -> usize
    requires { is_interface i.now ≡ true → count < most_interfaces }
    ensures { Noted i.now pairs.old count pairs.new result }
{
    if !is_interface(i) {
        return count;
    }
    pairs[count] = pair_of(i);
    count + 1
}

// Whether the interface descriptor i at a place repeats the pair of an earlier one. A setting at the top of its number or above it
// repeats none, and one more is the new top.
fn repeats(
    config: &[u8],
    at: usize,
    i: &[u8],
    tops: &mut [u16; 256],
    pairs: &[u16; MOST_INTERFACES],
    count: usize,
) -> bool
    requires tops { Tops config.now at tops.old }
    requires pairs { Pairs config.now at pairs.now count }
    ensures { Repeats config.now at i.now tops.old tops.new result }
{
    let setting = byte_at(i, 3);
    let index = index_of(byte_at(i, 2));
    if (setting as u16) < tops[index] {
        return pairs[..count].contains(&pair_of(i));
    }
    tops[index] = setting as u16 + 1;
    false
}

// Whether the descriptor i at a place is an interface descriptor that refusal 4 names. The earlier AudioControl one stands at `control`, L if
// there is none.
fn wrong_interface(
    config: &[u8],
    at: usize,
    i: &[u8],
    control: usize,
    tops: &mut [u16; 256],
    pairs: &[u16; MOST_INTERFACES],
    count: usize,
) -> bool
    requires tops { Tops config.now at tops.old }
    requires pairs { Pairs config.now at pairs.now count }
    requires control_value { control ≡ control_before config.now at }
    ensures { Looked config.now at i.now tops.old tops.new result }
{
    if !is_interface(i) {
        return false;
    }
    if i.len() != 9 {
        return true;
    }
    if repeats(config, at, i, tops, pairs, count) {
        return true;
    }
    if !is_audio(i, 1) {
        return false;
    }
    if control < config.len() {
        return true;
    }
    byte_at(i, 3) != 0
}

// Where the first AudioControl interface stands, given the place of an earlier one and the descriptor i at a place.
fn control_from(i: &[u8], at: usize, control: usize) -> usize
    ensures { result ≡ pick (is_audio 1 i.now) at control }
{
    if is_audio(i, 1) {
        return at;
    }
    control
}

// Where the AudioControl interface stands, or the first interface descriptor that refusal 4 names.
fn first_wrong_interface(config: &[u8]) -> Result<usize, Refusal>
    requires { length config.now ≤ most_bytes }
    ensures { result ≡ told (refuse 4 (searched wrong_interface config.now 0) none) (control_at config.now) }
{
    let mut tops = [0u16; 256];
    let mut pairs = [0u16; MOST_INTERFACES];
    let mut count: usize = 0;
    let mut control = config.len();
    let mut at: usize = 0;
    loop {
        let e = end_of(config, at);
        if e == at {
            return Ok(control);
        }
        let i = &config[at..e];
        if wrong_interface(config, at, i, control, &mut tops, &pairs, count) {
            return Err(Refusal {
                number: 4,
                place: at,
            });
        }
        count = note_pair(i, &mut pairs, count);
        control = control_from(i, at, control);
        at = e;
    }
}

// Rule 4.
fn check_interfaces(config: &[u8]) -> Result<usize, Refusal>
    requires { length config.now ≤ most_bytes }
    ensures { result ≡ told (refuse 4 (breach4 config.now) none) (control_at config.now) }
{
    let control = first_wrong_interface(config)?;
    refuse_unless(control < config.len(), 4, config.len())?;
    Ok(control)
}

// Where the AudioControl interface stands in a configuration that keeps the rules 1 to 4, or the lowest number of those that it breaks, with its
// place.
pub fn locate(config: &[u8]) -> Result<usize, Refusal>
    ensures { result ≡ location_of config.now }
{
    refuse_at(1, check_size(config))?;
    refuse_at(2, check_opening(config))?;
    refuse_at(3, check_cutting(config))?;
    check_interfaces(config)
}

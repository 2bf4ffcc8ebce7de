#![tactic(auto)]
// Groups and the header (document 01; document 02, No. 12). What it promises to the layer above: the lowest number of the rules 1 to 7, or of 1 to
// 6 of the 3.0 edition, that a configuration breaks, with its place; and where the AudioControl group's parts stand, if it keeps them.
ghost use Rattle.std.specs.Prelude.{◌≡◌, ◌&&◌, not, ◌+◌, ◌≤◌, eqb, length};
ghost use Rattle.ground.specs.Numbers.{word};
ghost use Rattle.ground.specs.Lists.{part};
ghost use Rattle.ground.specs.Refuse.{none, place_or};
ghost use Rattle.ground.specs.Told.{told, kept_or};
ghost use Rattle.search.specs.Want.{found_from};
ghost use Rattle.interfaces.specs.Reading.{interfaces_judged};
ghost use Rattle.groups.specs.Reading.{frame_from, is_header, opens, strays_from};
ghost use Rattle.groups.specs.Reading.{frame_of, group_judged, framed_of};
ghost use Rattle.groups.specs.Third.{is_third_header, third_group_judged, third_framed_of};

use ground::{Refusal, refuse_unless};
use scan::{byte_at, end_of, stretch, word_at};
use search::{Want, find};

// Where the parts of the AudioControl group stand: its interface descriptor, the header, the run of entities, and the run's end.
#[derive(Clone, Copy)]
pub struct Frame {
    pub control: usize,
    pub header: usize,
    pub run: usize,
    pub end: usize,
}

// The place that was found, or another where there is none.
fn place_or(found: Option<usize>, otherwise: usize) -> usize
    ensures { result ≡ place_or found otherwise }
{
    match found {
        Some(place) => place,
        None => otherwise,
    }
}

// The place of the first wanted descriptor from a place on, or the end of the configuration.
fn place_of(config: &[u8], from: usize, want: Want) -> usize
    ensures { result ≡ place_or (found_from config.now from want) (length config.now) }
{
    place_or(find(config, from, want), config.len())
}

// Where the AudioControl group's parts stand, behind the interface descriptor at a place.
fn frame_from(config: &[u8], control: usize) -> Frame
    requires { control ≤ length config.now }
    ensures { result ≡ frame_from config.now control }
{
    let header = control + 9;
    let run = end_of(config, header);
    let end = place_of(config, run, Want::NotClass);
    Frame {
        control,
        header,
        run,
        end,
    }
}

// Whether a descriptor opens as the header does.
fn opens_header(h: &[u8]) -> bool
    ensures { result ≡ opens h.now }
{
    check::same(stretch(h, 1, 5), b"\x24\x01\x00\x01")
}

// Whether a descriptor is a header: it opens as one, and is 8+n long, where byte 7 is n.
fn is_header(h: &[u8]) -> bool
    ensures { result ≡ is_header h.now }
{
    opens_header(h) && h.len() == 8 + byte_at(h, 7) as usize
}

// Whether a type 24 descriptor stands from a place on, before the next interface descriptor.
pub fn strays_from(config: &[u8], end: usize) -> bool
    ensures { result ≡ strays_from config.now end }
{
    match find(config, end, Want::ClassOrInterface) {
        Some(place) => byte_at(config, place + 1) == 0x24,
        None => false,
    }
}

// Whether the two bytes at an offset of the header h tell the length of header and run together, and nothing of type 24 stands later in the
// group.
fn total_right(config: &[u8], h: &[u8], told: usize, header: usize, end: usize) -> bool
    ensures { result ≡ (eqb (header + word h.now told) end && not (strays_from config.now end)) }
{
    header <= end && end - header == word_at(h, told) as usize && !strays_from(config, end)
}

// Rules 5, 6 and 7.
fn judge_group(config: &[u8], f: Frame) -> Result<(), Refusal>
    ensures { result ≡ kept_or (group_judged config.now f none) }
{
    let h = stretch(config, f.header, f.run);
    refuse_unless(is_header(h), 5, f.header)?;
    refuse_unless(total_right(config, h, 5, f.header, f.end), 6, f.header)?;
    refuse_unless(
        collection::is_right(config, stretch(h, 8, h.len())),
        7,
        f.header,
    )
}

// Whether a descriptor is a header of the 3.0 edition: 10 long, and 24 01.
fn is_third_header(h: &[u8]) -> bool
    ensures { result ≡ is_third_header h.now }
{
    h.len() == 10 && byte_at(h, 1) == 0x24 && byte_at(h, 2) == 1
}

// Rules 5 and 6 of the 3.0 edition.
fn judge_third_group(config: &[u8], f: Frame) -> Result<(), Refusal>
    ensures { result ≡ kept_or (third_group_judged config.now f none) }
{
    let h = stretch(config, f.header, f.run);
    refuse_unless(is_third_header(h), 5, f.header)?;
    refuse_unless(total_right(config, h, 4, f.header, f.end), 6, f.header)
}

// Where the AudioControl group's parts stand in a configuration that keeps the rules 1 to 4.
fn placed(config: &[u8]) -> Result<Frame, Refusal>
    ensures { result ≡ told (interfaces_judged config.now none) (frame_of config.now) }
{
    let control = interfaces::locate(config)?;
    Ok(frame_from(config, control))
}

// Where the AudioControl group's parts stand in a configuration that keeps the rules 1 to 7, or the lowest number of those that it breaks, with
// its place.
pub fn framed(config: &[u8]) -> Result<Frame, Refusal>
    ensures { result ≡ framed_of config.now }
{
    let frame = placed(config)?;
    judge_group(config, frame)?;
    Ok(frame)
}

// The same by the rules 1 to 6 of the 3.0 edition, which has no rule 7.
pub fn framed_third(config: &[u8]) -> Result<Frame, Refusal>
    ensures { result ≡ third_framed_of config.now }
{
    let frame = placed(config)?;
    judge_third_group(config, frame)?;
    Ok(frame)
}

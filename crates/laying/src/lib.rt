#![tactic(auto)]
// An entity laid into a lent buffer as its descriptor (document 02, No. 9). What it promises to the layer above: the bytes of an entity's
// descriptor at a place of the buffer, and how many they are; or 0, and the buffer as it stood, where they would pass 255 or there is no room.
// Every field is laid as it stands: what a field may be is the reader's to judge.
ghost use Rattle.std.specs.Prelude.{◌≡◌, ◌+◌, ◌≤◌, ◌++◌, ◌∷◌, length};
ghost use Rattle.layout.specs.Format.{two_of};
ghost use Rattle.layout.specs.Fields.{input, output, mixer, selector, feature, bytes_of};
ghost use Rattle.fields.specs.Listed.{printed, written_as, entity_from, listed_with};
ghost use Rattle.laying.specs.Paste.{pasted, pasted_in};
ghost use Rattle.laying.specs.Laying.{short_of, Lay};

use fields::{Item, Numbers};

// The most bytes that a descriptor may have: its length is one byte.
pub const MOST_LONG: usize = 255;

// Byte 1 of every descriptor of the run.
const CLASS: u8 = 0x24;

// Puts bytes at a place where there is room for them.
fn put(from: &[u8], out: &mut [u8], at: usize)
    requires { at + length from.now ≤ length out.old }
    ensures { out.new ≡ pasted at from.now out.old }
{
    let end = at + from.len();
    out[at..end].copy_from_slice(from);
}

// Bytes put at a place of a buffer, or nothing where they do not fit from there on.
pub fn paste(from: &[u8], out: &mut [u8], at: usize)
    ensures { out.new ≡ pasted_in at from.now out.old }
{
    if out.len() < from.len() {
        return;
    }
    if out.len() - from.len() < at {
        return;
    }
    put(from, out, at);
}

// Puts what varies in length between what does not.
fn put_three(head: &[u8], varying: &[u8], tail: &[u8], out: &mut [u8], at: usize)
    requires { at + (length head.now + (length varying.now + length tail.now)) ≤ length out.old }
    ensures { out.new ≡ pasted at (head.now ++ (varying.now ++ tail.now)) out.old }
{
    put(head, out, at);
    let behind = at + head.len();
    put(varying, out, behind);
    put(tail, out, behind + varying.len());
}

// Stays: a struct for the fields would be filled from `Numbers::Input` in `put_entity` and read here, once each.
fn put_input(
    id: u8,
    terminal: u16,
    paired: u8,
    channels: u8,
    locations: u16,
    names: u8,
    name: u8,
    out: &mut [u8],
    at: usize,
)
    requires { at + 12 ≤ length out.old }
    ensures { out.new ≡ pasted at (bytes_of (input id (two_of terminal) paired channels (two_of locations) names name)) out.old }
{
    let [type_low, type_high] = terminal.to_le_bytes();
    let [low, high] = locations.to_le_bytes();
    let bytes = [
        12, CLASS, 2, id, type_low, type_high, paired, channels, low, high, names, name,
    ];
    put(&bytes, out, at);
}

fn put_output(id: u8, terminal: u16, paired: u8, source: u8, name: u8, out: &mut [u8], at: usize)
    requires { at + 9 ≤ length out.old }
    ensures { out.new ≡ pasted at (bytes_of (output id (two_of terminal) paired source name)) out.old }
{
    let [low, high] = terminal.to_le_bytes();
    let bytes = [9, CLASS, 3, id, low, high, paired, source, name];
    put(&bytes, out, at);
}

// Stays: a struct for the fields would be filled from `Numbers::Mixer` in `put_entity` and read here, once each.
fn put_mixer(
    id: u8,
    sources: &[u8],
    channels: u8,
    locations: u16,
    names: u8,
    controls: &[u8],
    name: u8,
    out: &mut [u8],
    at: usize,
)
    requires controls_bound { 10 + length sources.now + length controls.now ≤ 255 }
    requires controls_in_bounds { at + (10 + length sources.now + length controls.now) ≤ length out.old }
    ensures { out.new ≡ pasted at (bytes_of (mixer id sources.now channels (two_of locations) names controls.now name)) out.old }
{
    let pins = sources.len();
    let n = 10 + pins + controls.len();
    let [low, high] = locations.to_le_bytes();
    let head = [n as u8, CLASS, 4, id, pins as u8];
    let cluster = [channels, low, high, names];
    let tail = [name];
    put(&head, out, at);
    put(sources, out, at + 5);
    put_three(&cluster, controls, &tail, out, at + 5 + pins);
}

fn put_selector(id: u8, sources: &[u8], name: u8, out: &mut [u8], at: usize)
    requires sources_bound { 6 + length sources.now ≤ 255 }
    requires sources_in_bounds { at + (6 + length sources.now) ≤ length out.old }
    ensures { out.new ≡ pasted at (bytes_of (selector id sources.now name)) out.old }
{
    let pins = sources.len();
    let n = 6 + pins;
    let head = [n as u8, CLASS, 5, id, pins as u8];
    let tail = [name];
    put_three(&head, sources, &tail, out, at);
}

fn put_feature(id: u8, source: u8, size: u8, masks: &[u8], name: u8, out: &mut [u8], at: usize)
    requires masks_bound { 7 + length masks.now ≤ 255 }
    requires masks_in_bounds { at + (7 + length masks.now) ≤ length out.old }
    ensures { out.new ≡ pasted at (bytes_of (feature id source size masks.now name)) out.old }
{
    let n = 7 + masks.len();
    let head = [n as u8, CLASS, 6, id, source, size];
    let tail = [name];
    put_three(&head, masks, &tail, out, at);
}

// The printed Selector has a byte 0 in front of its sources (source document 004, tables C-11 to C-13).
fn put_printed(id: u8, sources: &[u8], name: u8, out: &mut [u8], at: usize)
    requires sources_bound { 7 + length sources.now ≤ 255 }
    requires sources_in_bounds { at + (7 + length sources.now) ≤ length out.old }
    ensures { out.new ≡ pasted at (written_as (printed id sources.now name)) out.old }
{
    let pins = sources.len();
    let n = 7 + pins;
    let head = [n as u8, CLASS, 5, id, pins as u8, 0];
    let tail = [name];
    put_three(&head, sources, &tail, out, at);
}

// A length of so many bytes and two stretches; none where it passes 255.
fn sized(fixed: usize, first: usize, second: usize) -> Option<usize>
    requires { fixed ≤ 12 }
    ensures { result ≡ short_of (fixed + first + second) }
{
    if MOST_LONG < first {
        return None;
    }
    if MOST_LONG < second {
        return None;
    }
    let n = fixed + first + second;
    if MOST_LONG < n {
        return None;
    }
    Some(n)
}

// The length of an entity's descriptor; none where it passes 255. An entity of no kind has no bytes.
fn size_of(numbers: Numbers, sources: &[u8], controls: &[u8]) -> Option<usize>
    ensures { result ≡ short_of (length (written_as (entity_from numbers sources.now controls.now))) }
{
    match numbers {
        Numbers::Unknown => sized(0, 0, 0),
        Numbers::Input { .. } => sized(12, 0, 0),
        Numbers::Output { .. } => sized(9, 0, 0),
        Numbers::Mixer { .. } => sized(10, sources.len(), controls.len()),
        Numbers::Selector { .. } => sized(6, sources.len(), 0),
        Numbers::Feature { .. } => sized(7, controls.len(), 0),
        Numbers::Printed { .. } => sized(7, sources.len(), 0),
    }
}

// Puts an entity's descriptor at a place where there is room for it.
fn put_entity(numbers: Numbers, sources: &[u8], controls: &[u8], out: &mut [u8], at: usize)
    requires controls_len_bound { length (written_as (entity_from numbers sources.now controls.now)) ≤ 255 }
    requires controls_in_bounds { at + length (written_as (entity_from numbers sources.now controls.now)) ≤ length out.old }
    ensures { out.new ≡ pasted at (written_as (entity_from numbers sources.now controls.now)) out.old }
{
    match numbers {
        Numbers::Unknown => {}
        Numbers::Input {
            id,
            terminal,
            paired,
            channels,
            locations: bits,
            names,
            name,
        } => put_input(id, terminal, paired, channels, bits, names, name, out, at),
        Numbers::Output {
            id,
            terminal,
            paired,
            source,
            name,
        } => put_output(id, terminal, paired, source, name, out, at),
        Numbers::Mixer {
            id,
            channels,
            locations: bits,
            names,
            name,
        } => put_mixer(id, sources, channels, bits, names, controls, name, out, at),
        Numbers::Selector { id, name } => put_selector(id, sources, name, out, at),
        Numbers::Feature {
            id,
            source,
            size,
            name,
        } => put_feature(id, source, size, controls, name, out, at),
        Numbers::Printed { id, name } => put_printed(id, sources, name, out, at),
    }
}

// Stays: `Lay`, in this contract and the layer above, is over a number, 0 where nothing is laid.
// Lays the descriptor of an entity, whose sources and control bytes or masks stand in a lent slice, at a place of the buffer, and answers how
// many bytes it has: none, and the buffer as it stood, where they would pass 255 or have no room.
pub fn lay(item: Item, varying: &[u8], out: &mut [u8], at: usize) -> usize
    ensures { Lay (written_as (listed_with varying.now item)) at out.old out.new result }
{
    let sources = scan::stretch(varying, item.sources.from, item.sources.end);
    let controls = scan::stretch(varying, item.controls.from, item.controls.end);
    let numbers = item.numbers;
    let Some(n) = size_of(numbers, sources, controls) else {
        return 0;
    };
    if out.len() < n {
        return 0;
    }
    if out.len() - n < at {
        return 0;
    }
    put_entity(numbers, sources, controls, out, at);
    n
}

#![tactic(auto)]
// Data formats (document 01, "Streaming"). What it promises to the layer above: for every two descriptors, whether the one is GENERAL, and
// whether the other is a right FORMAT_TYPE for a tag and a number of channels. Which descriptors of a configuration are asked, and of which
// Terminal, is rule 14's to say.
ghost use Rattle.std.specs.Prelude.{◌≡◌, ◌<◌};
ghost use Rattle.ground.specs.Numbers.{triple};
ghost use Rattle.formats.specs.Tests.{opens_as, is_general, is_format, samples_right, rates_right, is_type_one, format_right};

use scan::byte_at;

// The number of three bytes at an offset, the low byte first.
fn triple_at(s: &[u8], at: usize) -> u32
    requires { at < 4096 }
    ensures { result ≡ triple s.now at }
{
    u32::from_le_bytes([byte_at(s, at), byte_at(s, at + 1), byte_at(s, at + 2), 0])
}

// Whether a descriptor is a class-specific one of this subtype.
#[tactic(auto, unfolding(crate::specs::Tests::opens_as))]
fn opens_as(d: &[u8], subtype: u8) -> bool
    ensures { result ≡ opens_as subtype d.now }
{
    byte_at(d, 1) == 0x24 && byte_at(d, 2) == subtype
}

#[tactic(auto, unfolding(crate::specs::Tests::is_general))]
pub fn is_general(g: &[u8]) -> bool
    ensures { result ≡ is_general g.now }
{
    g.len() == 7 && opens_as(g, 1)
}

#[tactic(auto, unfolding(crate::specs::Tests::is_format))]
fn is_format(f: &[u8]) -> bool
    ensures { result ≡ is_format f.now }
{
    4 <= f.len() && opens_as(f, 2)
}

// Bytes 5 and 6: the bytes of a sample, and the bits that are used of them.
#[tactic(auto, unfolding(crate::specs::Tests::samples_right))]
fn samples_right(f: &[u8]) -> bool
    ensures { result ≡ samples_right f.now }
{
    let bytes = byte_at(f, 5);
    let bits = byte_at(f, 6);
    (1..=4).contains(&bytes) && (1..=8 * bytes).contains(&bits)
}

// Byte 7 is f, how many rates are listed; 0 for the continuous form.
#[tactic(auto, unfolding(crate::specs::Tests::rates_right))]
fn rates_right(f: &[u8]) -> bool
    ensures { result ≡ rates_right f.now }
{
    let listed = byte_at(f, 7);
    if 0 < listed {
        f.len() == 8 + 3 * listed as usize
    } else {
        f.len() == 14 && triple_at(f, 8) <= triple_at(f, 11)
    }
}

// Type I in full, for a Terminal of these channels.
#[tactic(auto, unfolding(crate::specs::Tests::is_type_one))]
fn is_type_one(f: &[u8], channels: u16) -> bool
    ensures { result ≡ is_type_one channels f.now }
{
    8 <= f.len()
        && byte_at(f, 3) == 1
        && byte_at(f, 4) as u16 == channels
        && samples_right(f)
        && rates_right(f)
}

// FORMAT_TYPE under the tag that GENERAL has; a tag other than 1 has it not read further.
#[tactic(auto, unfolding(crate::specs::Tests::format_right))]
pub fn format_right(f: &[u8], tag: u16, channels: u16) -> bool
    ensures { result ≡ format_right tag channels f.now }
{
    is_format(f) && (tag != 1 || is_type_one(f, channels))
}

#![tactic(auto)]
// Bytes to descriptors. What it promises to the layer above: for every slice and every place, the byte and the number that stand there,
// where the descriptor there ends, how far descriptors stand one after another from there on, and each of these with its place.
ghost use Rattle.std.specs.Prelude.{◌≡◌};
ghost use Rattle.std.specs.Iterator.{YieldsFirstBy, item_count};
ghost use Rattle.ground.specs.Numbers.{byte, word};
ghost use Rattle.ground.specs.Lists.{part};
ghost use Rattle.scan.specs.Cutting.{end_at, rest, reach};
ghost use Rattle.scan.specs.Placed.{placed_from, seen, ahead};

// The byte at an offset, 0 past the end.
pub fn byte_at(s: &[u8], at: usize) -> u8
    ensures { result ≡ byte s.now at }
{
    s.get(at).copied().unwrap_or(0)
}

// The number of two bytes at an offset, the low byte first.
pub fn word_at(s: &[u8], at: usize) -> u16
    ensures { result ≡ word s.now at }
{
    if s.len() <= at {
        return 0;
    }
    u16::from_le_bytes([byte_at(s, at), byte_at(s, at + 1)])
}

// Where the descriptor at a place ends: the place itself where none stands.
#[tactic(auto, using(crate::specs::CuttingLaws::byte_inside), unfolding(crate::specs::Cutting::end_by))]
pub fn end_of(s: &[u8], at: usize) -> usize
    ensures { result ≡ end_at s.now at }
{
    let n = byte_at(s, at) as usize;
    if n < 2 || s.len() - at < n {
        at
    } else {
        at + n
    }
}

// The descriptor at a place; empty where none stands.
#[tactic(auto, using(crate::specs::CuttingLaws::end_off))]
pub fn descriptor_at(s: &[u8], at: usize) -> &[u8]
    ensures { result.now ≡ part s.now at (end_at s.now at) }
{
    s.get(at..end_of(s, at)).unwrap_or(&[])
}

// The bytes from one place up to another, as many of them as there are.
pub fn stretch(s: &[u8], a: usize, e: usize) -> &[u8]
    ensures { result.now ≡ part s.now a e }
{
    let end = e.min(s.len());
    &s[a.min(end)..end]
}

// The place up to which descriptors stand, one after another, from a place on.
pub fn reach_of(s: &[u8], from: usize) -> usize
    ensures { result ≡ reach s.now from }
{
    let mut at = from;
    loop {
        let e = end_of(s, at);
        if e == at {
            return at;
        }
        at = e;
    }
}

// The descriptors that stand one after another from a place on, each with its place.
#[derive(Drop)]
pub struct Descriptors<'a> {
    s: &'a [u8],
    at: usize,
}

// Those of these bytes from this place on.
pub fn descriptors_from(s: &[u8], from: usize) -> Descriptors<'_>
    ensures { ahead result ≡ placed_from from (rest s.now from) }
{
    Descriptors { s, at: from }
}

impl<'a> Iterator for Descriptors<'a> {
    type Item = (usize, &'a [u8]);

    ghost next_gives = { YieldsFirstBy seen ahead };

    ghost remaining = { item_count ahead };

    fn next(&mut self) -> Option<(usize, &'a [u8])> {
        let at = self.at;
        let end = end_of(self.s, at);
        if end == at {
            return None;
        }
        self.at = end;
        Some((at, &self.s[at..end]))
    }
}

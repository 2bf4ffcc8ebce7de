#![tactic(auto)]
// What the functions of loads and requests share: what may be done at a control (specs/Doing.antt, words alone), and the writer of a Get's
// reply. What this crate promises to the layer above: for every number, size, offset and reply whatever, what specs/Reply.antt says.
ghost use Rattle.std.specs.Prelude.{◌≡◌, length};
ghost use Rattle.deed.specs.Reply.{bytes_put, Put};

// Writes a number's first bytes, the low one first, behind the first `at` of the reply and up to `end`; answers where they end. Where the
// reply is shorter than `end`, nothing is written.
pub fn write(value: u16, size: usize, at: usize, end: usize, reply: &mut [u8]) -> usize
    ensures { Put (bytes_put value size at end (length reply.old)) at reply.old result reply.new }
{
    if end <= at || reply.len() < end {
        return at;
    }
    let count = size.min(2).min(end - at);
    reply[at..at + count].copy_from_slice(&value.to_le_bytes()[..count]);
    at + count
}

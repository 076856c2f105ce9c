// The lines of a stream that comes in pieces: where one ends, and what is kept of the one that has begun.
#![tactic(auto)]

ghost use Rattle.std.specs.Prelude.{◌≡◌, ◌+◌, ◌-◌, ◌≤◌, length, take, drop};
ghost use Rattle.stream_pieces.specs.Pieces.{before, kept};

use line_buffers::LINE_BYTES;
use memchr::memchr;

// The line that has begun: how many of its bytes are at the start of the buffer, and whether bytes of it were dropped.
// A flag, since a line of which bytes were dropped may have others at the start; a length, since the buffer is lent.
#[derive(Clone, Copy)]
pub struct Carry {
    pub have: usize,
    pub long: bool,
}

// Where the line that starts at `at` ends: at its newline, or at the end of the piece.
#[tactic(auto, using(crate::proofs::Laws::line_ends))]
pub fn line_end(piece: &[u8], at: usize) -> usize
    requires { at ≤ length piece.now }
    ensures { result ≡ at + before (drop at piece.now) }
{
    let rest = &piece[at..];
    at + memchr(b'\n', rest).unwrap_or(rest.len())
}

// Keeps the line that has begun, which is from `at` up to `end`: its bytes go to the start, unless there are too many.
#[tactic(auto, using(crate::proofs::Laws::keep_none, crate::proofs::Laws::keep_all))]
pub fn keep(buf: &mut [u8], at: usize, end: usize, long: bool) -> Carry
    requires { (at ≤ end) × (end ≤ length buf.old) }
    ensures { (result.have ≤ 1024) × (record { long = result.long; line = take result.have buf.new } ≡ kept (record { long = long; line = take (end - at) (drop at buf.old) })) }
{
    let have = end - at;
    if have > LINE_BYTES {
        return Carry {
            have: 0,
            long: true,
        };
    }
    buf.copy_within(at..end, 0);
    Carry { have, long }
}

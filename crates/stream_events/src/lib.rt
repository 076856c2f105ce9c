// The event lines of a stream that comes in pieces, and the answers to them. A line goes as its bytes and whether bytes
// of it were dropped, and not as an `Option<&[u8]>`: one of which bytes were dropped still has bytes that stand in the
// piece, and a last line is one if it has a byte or had more (`is_line`). The output is a slice with room for any
// answer, another part of it for each line: a struct of it would be made for each line only to be taken apart.
#![tactic(auto)]

ghost use Rattle.std.specs.Prelude.{◌≡◌, ◌||◌, List, ℕ, ◌≤◌, ltb, length};
ghost use Rattle.line_buffers.specs.Same.{SameBuffers};
ghost use Rattle.stream_events.specs.Lines.{start};
ghost use Rattle.stream_events.specs.Fed.{LentBy, state_of, WritesLine, WritesLastLine, WritesLines};

use ids::Refusal;
use line_buffers::{Buffers, TEXT_BYTES};
use line_host::Host;

// What goes from line to line: the host, and the number of the next line, which counts lines and stands for no kind.
#[derive(Clone, Copy)]
pub struct LineState {
    pub host: Host,
    pub number: u64,
}

// A place in a piece: where the next line starts, what it finds, and whether bytes of it were dropped.
// A flag, since a line of which bytes were dropped starts somewhere too.
#[derive(Clone, Copy)]
pub struct Place {
    pub at: usize,
    pub state: LineState,
    pub long: bool,
}

// The next place, how much of the output is used, and whether the output was too full to go on.
// A flag, since the place and the used length are there in both cases; a length, since the output is lent.
#[derive(Clone, Copy)]
pub struct Fed {
    pub place: Place,
    pub used: usize,
    pub more: bool,
}

impl LineState {
    // Before the first line.
    #[tactic(auto, using(crate::proofs::Laws::fresh_state))]
    pub fn fresh() -> LineState
        ensures { ((mem rows : List ℕ) → state_of result mem rows ≡ start) × (result.host.draft.count ≤ 64) }
    {
        LineState {
            host: Host::fresh(),
            number: 1,
        }
    }
}

// Answers a line, and says where its text ends. If `long`, the line had bytes more, which were dropped.
pub fn one(
    state: &mut LineState,
    buffers: &mut Buffers<'_>,
    long: bool,
    line: &[u8],
    out: &mut [u8],
) -> usize
    requires { LentBy state.old.host buffers.old × (65536 ≤ length out.old) }
    ensures same { SameBuffers buffers.old buffers.new }
    ensures writes { let b = buffers.old in let b' = buffers.new in WritesLine state.old b.mem.now b.rows.now (record { long = long; line = line.now }) out.old (record { state = state.new; end = result }) b'.mem.now b'.rows.now b'.area.now b'.groups.now out.new }
{
    let number = state.number;
    state.number = number.saturating_add(1);
    if long {
        let area = &mut *buffers.area;
        return line_answer::put_answer(out, number, Err(Refusal::Malformed), area);
    }
    line_event::event(&mut state.host, buffers, number, line, out).end
}

// Answers the lines of a piece from a place on, while the output has room for any answer.
pub fn feed(piece: &[u8], from: Place, buffers: &mut Buffers<'_>, out: &mut [u8]) -> Fed
    requires { (from.at ≤ length piece.now) × LentBy from.state.host buffers.old × (65536 ≤ length out.old) }
    ensures same { SameBuffers buffers.old buffers.new }
    ensures writes { let b = buffers.old in let b' = buffers.new in WritesLines piece.now from b.mem.now b.rows.now out.old result b'.mem.now b'.rows.now b'.area.now b'.groups.now out.new }
{
    let mut place = from;
    let mut used = 0;
    // No `for`: a line's end is found by the kit's `memchr`, faster than by going over the bytes, and the next line
    // begins behind it.
    while out.len() - used >= TEXT_BYTES {
        let end = stream_pieces::line_end(piece, place.at);
        if end == piece.len() {
            return Fed {
                place,
                used,
                more: false,
            };
        }
        used += one(
            &mut place.state,
            buffers,
            place.long,
            &piece[place.at..end],
            &mut out[used..],
        );
        place.at = end + 1;
        place.long = false;
    }
    Fed {
        place,
        used,
        more: true,
    }
}

// Whether a last line without a newline is one.
fn is_line(long: bool, line: &[u8]) -> bool
    ensures { result ≡ (long || ltb 0 (length line.now)) }
{
    long || !line.is_empty()
}

// Answers a last line without a newline, if it has a byte, and says where its text ends.
pub fn last_line(
    state: &mut LineState,
    buffers: &mut Buffers<'_>,
    long: bool,
    line: &[u8],
    out: &mut [u8],
) -> usize
    requires { LentBy state.old.host buffers.old × (65536 ≤ length out.old) }
    ensures same { SameBuffers buffers.old buffers.new }
    ensures writes { let b = buffers.old in let b' = buffers.new in WritesLastLine state.old b.mem.now b.rows.now (record { long = long; line = line.now }) out.old (record { state = state.new; end = result }) b'.mem.now b'.rows.now b'.area.now b'.groups.now out.new }
{
    if is_line(long, line) {
        one(state, buffers, long, line, out)
    } else {
        0
    }
}

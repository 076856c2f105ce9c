// The turns of a program that answers a stream of event lines. A turn reads and writes nothing: it is handed the bytes
// that were read, and leaves the text that is to be written. Buffers and output are lent one by one, as stream_events
// has them.
#![tactic(auto)]

ghost use Rattle.std.specs.Prelude.{◌≤◌, length};
ghost use Rattle.line_buffers.specs.Same.{SameBuffers};
ghost use Rattle.stream_events.specs.Fed.{LentBy};
ghost use Rattle.stream_turns.specs.Turn.{Begins, TurnLeaves};

use line_buffers::Buffers;
use stream_events::{LineState, Place};

// Where a stream stands: the bytes of the buffer from `place.at` up to `end` were read and are not answered. If `more`,
// lines may end in them; if not, they are the line that has begun, at the buffer's start.
// A flag, since both kinds have a place and an end; numbers, since the buffer is lent.
#[derive(Clone, Copy)]
pub struct Stream {
    pub place: Place,
    pub end: usize,
    pub more: bool,
}

// Where the stream stands after a turn, and how much of the output is its text: a length, since the output is lent.
#[derive(Clone, Copy)]
pub struct TurnResult {
    pub stream: Stream,
    pub used: usize,
}

impl Stream {
    // Before the first byte.
    pub fn fresh() -> Stream
        ensures { Begins result }
    {
        Stream {
            place: Place {
                at: 0,
                state: LineState::fresh(),
                long: false,
            },
            end: 0,
            more: false,
        }
    }
}

// Answers the lines that end in the bytes, while the output has room for any answer. Where it has room for all, keeps
// the line that has begun.
pub fn turn(buf: &mut [u8], from: Stream, buffers: &mut Buffers<'_>, out: &mut [u8]) -> TurnResult
    requires { (from.place.at ≤ from.end) × (from.end ≤ length buf.old) × (1024 ≤ length buf.old) × LentBy from.place.state.host buffers.old × (65536 ≤ length out.old) }
    ensures same { SameBuffers buffers.old buffers.new }
    ensures leaves { let b = buffers.old in let b' = buffers.new in TurnLeaves buf.old from b.mem.now b.rows.now out.old result buf.new b'.mem.now b'.rows.now b'.area.now b'.groups.now out.new }
{
    let fed = stream_events::feed(&buf[..from.end], from.place, buffers, out);
    if fed.more {
        return TurnResult {
            stream: Stream {
                place: fed.place,
                end: from.end,
                more: true,
            },
            used: fed.used,
        };
    }
    let left = stream_pieces::keep(buf, fed.place.at, from.end, fed.place.long);
    TurnResult {
        stream: Stream {
            place: Place {
                at: 0,
                state: fed.place.state,
                long: left.long,
            },
            end: left.have,
            more: false,
        },
        used: fed.used,
    }
}

// Reads event lines from standard input and writes an answer to each (document 01, "The event program").
// The input is read in pieces of 64 KB and never kept whole. A line of more than 1,024 bytes is refused 1; a last line
// without a newline counts if it has a byte. The answers to a piece are written after it, or before, where the output
// has no room for another answer. The program ends when the input does, or when a read or a write fails, which it says
// on standard error and by its status. After a read that failed, the line that has begun is not answered.
#![tactic(auto)]

ghost use Rattle.std.specs.Prelude.{◌≡◌, ◌↔◌, true, false, ◌≤◌, ◌<◌, length, IfOk, IfSome, MatchResult, IsTrue};
ghost use Rattle.std.specs.IoError.{error_kind};
ghost use Rattle.layout.specs.Layout.{roster_words, node_words};
ghost use Rattle.replay.specs.Reads.{answered, filled_as, Filling};
ghost use Rattle.replay.specs.Steps.{StandsIn, StepsIn};

use line_buffers::{Buffers, GROUP_WORDS, ITEM_WORDS, LINE_BYTES, TEXT_BYTES, blank};
use std::io::{ErrorKind, Read, Stdin, Stdout};
use std::process::ExitCode;
use std::{fmt, io};
use stream_turns::Stream;

// Room for a piece of 64 KB behind the start of a line.
const PIECE_BYTES: usize = LINE_BYTES + 65536;

// Room for many answers and then any one more, so that writes are few.
const ANSWERS_BYTES: usize = 3 * TEXT_BYTES;

// What the program ends early for.
#[derive(Clone, Copy)]
enum Failure {
    Read,
    Write,
}

impl fmt::Display for Failure {
    fn fmt<W: fmt::Write>(&self, f: &mut fmt::Formatter<W>) -> fmt::Result {
        match *self {
            Failure::Read => f.write_str("cannot read standard input"),
            Failure::Write => f.write_str("cannot write to standard output"),
        }
    }
}

fn write(output: Stdout, text: &[u8]) -> Result<(), Failure> {
    output.write_all(text).map_err(|_| Failure::Write)
}

// Whether a signal interrupted a read that failed.
fn was_interrupted(got: io::Result<usize>) -> bool
    ensures { MatchResult got (λ _. result ≡ false) (λ e. IsTrue result ↔ (error_kind e ≡ ErrorKind.Interrupted)) }
{
    match got {
        Ok(_) => false,
        Err(e) => e.kind() == ErrorKind::Interrupted,
    }
}

// What a read that answered `got` brought: the bytes ended at `have` before it, and if it got any, end at `end`; None
// is the input's end. A read that a signal interrupted is a piece without bytes.
#[tactic(auto, unfolding(crate::specs::Reads::filled_as))]
fn outcome(
    got: io::Result<usize>,
    interrupted: bool,
    have: usize,
    end: usize,
) -> Result<Option<usize>, Failure>
    ensures { result ≡ filled_as (answered got) interrupted have end }
{
    match got {
        Ok(0) => Ok(None),
        Ok(_) => Ok(Some(end)),
        Err(_) if interrupted => Ok(Some(have)),
        Err(_) => Err(Failure::Read),
    }
}

// Reads a piece behind the bytes that were kept, and says where the bytes end then; None where the input has ended. The
// buffer comes whole, with the kept length, since the end counts from its start.
fn fill(mut input: Stdin, buf: &mut [u8], have: usize) -> Result<Option<usize>, Failure>
    requires { have < length buf.old }
    ensures { Filling buf.old have result buf.new }
{
    let got = input.read(&mut buf[have..]);
    let interrupted = was_interrupted(got);
    let end = have + got.unwrap_or(0);
    outcome(got, interrupted, have, end)
}

// What the program reads from and writes to, and what it is lent for that.
#[derive(Drop)]
struct Program<'a> {
    input: Stdin,
    output: Stdout,
    buf: &'a mut [u8],
    buffers: Buffers<'a>,
    out: &'a mut [u8],
    ghost piece_room: { 1025 ≤ length buf.now },
    ghost answer_room: { 65536 ≤ length out.now },
}

impl Program<'_> {
    // A turn over the bytes that wait, and its text written; or, where no line ends in them, a read. At the end of the
    // input, the last line.
    fn step(&mut self, from: Stream) -> Result<Option<Stream>, Failure>
        requires { StandsIn from self.old.buf.now self.old.buffers }
        ensures { IfOk result (λ next. IfSome next (λ stream. StepsIn from self.old.buf.now self.old.buffers stream self.new.buf.now self.new.buffers)) }
    {
        if from.more {
            let turned = stream_turns::turn(self.buf, from, &mut self.buffers, self.out);
            write(self.output, &self.out[..turned.used])?;
            return Ok(Some(turned.stream));
        }
        if let Some(end) = fill(self.input, self.buf, from.end)? {
            return Ok(Some(Stream {
                end,
                more: true,
                ..from
            }));
        }
        let mut state = from.place.state;
        let end = stream_events::last_line(
            &mut state,
            &mut self.buffers,
            from.place.long,
            &self.buf[..from.end],
            self.out,
        );
        write(self.output, &self.out[..end])?;
        Ok(None)
    }

    // A proved loop has to end, and nothing says that the input does: so it counts its steps, up to a number that no
    // run reaches.
    fn run(&mut self) -> Result<(), Failure>
        requires { let b = self.old.buffers in (node_words ≤ length b.mem.now) × (roster_words ≤ length b.rows.now) × (length b.area.now ≡ 3276) × (1542 ≤ length b.groups.now) }
    {
        let mut stream = Stream::fresh();
        for _ in 0..u64::MAX {
            let Some(next) = self.step(stream)? else {
                break;
            };
            stream = next;
        }
        Ok(())
    }
}

fn main(rt: HostRuntime) -> ExitCode {
    let mut buf: [u8; PIECE_BYTES] = blank();
    let mut mem: [u64; layout::NODE_WORDS] = blank();
    let mut rows: [u64; layout::ROSTER_WORDS] = blank();
    let mut area: [u64; ITEM_WORDS] = blank();
    let mut groups: [u64; GROUP_WORDS] = blank();
    let mut out: [u8; ANSWERS_BYTES] = blank();
    let mut program = Program {
        input: rt.stdin(),
        output: rt.stdout(),
        buf: &mut buf,
        buffers: Buffers {
            mem: &mut mem,
            rows: &mut rows,
            area: &mut area,
            groups: &mut groups,
        },
        out: &mut out,
    };
    if let Err(failure) = program.run() {
        let _ = eprintln!(rt; "replay: {failure}");
        return ExitCode::FAILURE;
    }
    ExitCode::SUCCESS
}

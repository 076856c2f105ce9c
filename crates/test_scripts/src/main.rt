// Replays the recorded answers of the original Rust (oracle/README.md, "Recorded answers"), which are standard input:
// answers each script's event lines from the fresh state, as a whole and cut in the middle, and compares what is
// written with what was recorded, byte for byte.
#![tactic(auto)]

mod scripts;

ghost use Rattle.std.specs.Prelude.{◌+◌, ◌≤◌, length, IfSome};
ghost use Rattle.stream_events.specs.Fed.{LentBy};

use line_buffers::{Buffers, GROUP_WORDS, ITEM_WORDS, LINE_BYTES, TEXT_BYTES, blank, read_full};
use node::Node;
use roster_conf::RespondersConf;
use scripts::Script;
use std::io;
use std::io::Stdout;
use stream_events::{LineState, Place};
use stream_pieces::Carry;

// Room for the file.
const FILE_BYTES: usize = 262144;

// Room for a script behind the start of a line, and for many answers.
const PIECE_BYTES: usize = LINE_BYTES + FILE_BYTES;

const ANSWERS_BYTES: usize = 3 * TEXT_BYTES;

// ---- a script's event lines, answered from the fresh state

// What goes from piece to piece: what is kept, and how many bytes of the recorded answers were met; None once what is
// written is not those.
#[derive(Clone, Copy)]
struct Progress {
    state: LineState,
    line: Carry,
    met: Option<usize>,
}

// Where the lines of a piece end, and what was met.
#[derive(Clone, Copy)]
struct Drained {
    place: Place,
    met: Option<usize>,
}

// Whether what is written is what was recorded, and how many lines were answered.
// A flag, since the lines count in both cases.
#[derive(Clone, Copy)]
struct Outcome {
    same: bool,
    lines: u64,
}

// The text follows those that were met.
fn meet(answers: &[u8], met: Option<usize>, text: &[u8]) -> Option<usize>
    ensures { IfSome result (λ at. at ≤ length answers.now) }
{
    let at = met?;
    let end = at.checked_add(text.len())?;
    (answers.get(at..end)? == text).then_some(end)
}

// Answers the lines of a piece, and compares the answers. Buffers and output are lent one by one, here and below, as to
// stream_events.
fn drain(
    piece: &[u8],
    answers: &[u8],
    from: Place,
    before: Option<usize>,
    buffers: &mut Buffers<'_>,
    out: &mut [u8],
) -> Drained
    requires { (from.at ≤ length piece.now) × LentBy from.state.host buffers.old × (65536 ≤ length out.old) }
    ensures { (result.place.at ≤ length piece.now) × LentBy result.place.state.host buffers.new }
{
    let mut place = from;
    let mut met = before;
    // No `for`: whether there is one more turn is known once one has ended.
    loop {
        let fed = stream_events::feed(piece, place, buffers, out);
        met = meet(answers, met, &out[..fed.used]);
        place = fed.place;
        if !fed.more {
            return Drained { place, met };
        }
    }
}

// Answers the lines that end in a piece, which goes behind the bytes that were kept.
fn hear(
    bytes: &[u8],
    answers: &[u8],
    p: Progress,
    buf: &mut [u8],
    buffers: &mut Buffers<'_>,
    out: &mut [u8],
) -> Progress
    requires { (p.line.have ≤ 1024) × (1024 + length bytes.now ≤ length buf.old) × LentBy p.state.host buffers.old × (65536 ≤ length out.old) }
    ensures { (result.line.have ≤ 1024) × LentBy result.state.host buffers.new }
{
    let end = p.line.have + bytes.len();
    buf[p.line.have..end].copy_from_slice(bytes);
    let from = Place {
        at: 0,
        state: p.state,
        long: p.line.long,
    };
    let drained = drain(&buf[..end], answers, from, p.met, buffers, out);
    let place = drained.place;
    Progress {
        state: place.state,
        line: stream_pieces::keep(buf, place.at, end, place.long),
        met: drained.met,
    }
}

// Answers a last line without a newline. Then all of the answers must have been met.
fn finish(
    answers: &[u8],
    p: Progress,
    buf: &[u8],
    buffers: &mut Buffers<'_>,
    out: &mut [u8],
) -> Outcome
    requires { (p.line.have ≤ length buf.now) × LentBy p.state.host buffers.old × (65536 ≤ length out.old) }
{
    let mut state = p.state;
    let line = &buf[..p.line.have];
    let end = stream_events::last_line(&mut state, buffers, p.line.long, line, out);
    let met = meet(answers, p.met, &out[..end]);
    Outcome {
        same: met == Some(answers.len()),
        lines: state.number.wrapping_sub(1),
    }
}

// Answers the lines of two pieces.
fn run(first: &[u8], second: &[u8], answers: &[u8]) -> Outcome
    requires { (length first.now ≤ 262144) × (length second.now ≤ 262144) }
{
    let mut buf: [u8; PIECE_BYTES] = blank();
    let mut mem: [u64; Node::WORDS] = blank();
    let mut rows: [u64; RespondersConf::WORDS] = blank();
    let mut area: [u64; ITEM_WORDS] = blank();
    let mut groups: [u64; GROUP_WORDS] = blank();
    let mut out: [u8; ANSWERS_BYTES] = blank();
    let mut buffers = Buffers {
        mem: &mut mem,
        rows: &mut rows,
        area: &mut area,
        groups: &mut groups,
    };
    let p = Progress {
        state: LineState::fresh(),
        line: Carry {
            have: 0,
            long: false,
        },
        met: Some(0),
    };
    let q = hear(first, answers, p, &mut buf, &mut buffers, &mut out);
    let r = hear(second, answers, q, &mut buf, &mut buffers, &mut out);
    finish(answers, r, &buf, &mut buffers, &mut out)
}

// ---- the scripts

#[derive(Clone, Copy)]
struct Tally {
    scripts: u64,
    lines: u64,
    differ: u64,
}

fn differs(output: Stdout, name: &[u8]) -> io::Result<()> {
    output.write_all(b"differs,")?;
    output.write_all(name)?;
    output.write_all(b"\n")
}

fn malformed(output: Stdout, at: usize) -> io::Result<()> {
    println!(output; "malformed at byte {at}")
}

fn report(output: Stdout, t: Tally) -> io::Result<()> {
    let Tally {
        scripts,
        lines,
        differ,
    } = t;
    println!(output; "{scripts} scripts, {lines} lines, {differ} differ")
}

// One script more.
fn counted(t: Tally, lines: u64, same: bool) -> Tally {
    Tally {
        scripts: t.scripts.wrapping_add(1),
        lines: t.lines.wrapping_add(lines),
        differ: t.differ.wrapping_add(u64::from(!same)),
    }
}

// Replays a script as a whole and in two pieces.
fn replay(output: Stdout, t: Tally, script: Script<'_>) -> io::Result<Tally>
    requires { length script.input.now ≤ 262144 }
{
    let Script {
        name,
        input,
        answers,
    } = script;
    let (first, second) = input.split_at(input.len() / 2);
    let whole = run(input, &[], answers);
    let cut = run(first, second, answers);
    let same = whole.same && cut.same;
    if !same {
        differs(output, name)?;
    }
    Ok(counted(t, whole.lines, same))
}

// Replays the scripts of a file.
fn replay_all(output: Stdout, file: &[u8]) -> io::Result<()>
    requires { length file.now ≤ 262144 }
{
    let mut t = Tally {
        scripts: 0,
        lines: 0,
        differ: 0,
    };
    let mut rest = file;
    // No `for`: where a script begins is known once the one before it is read.
    while !rest.is_empty() {
        let Some((script, after)) = scripts::split_first(rest) else {
            return malformed(output, file.len() - rest.len());
        };
        t = replay(output, t, script)?;
        rest = after;
    }
    report(output, t)
}

fn main(rt: HostRuntime) -> io::Result<()> {
    let mut file: [u8; FILE_BYTES] = blank();
    let n = read_full(&mut rt.stdin(), &mut file)?;
    replay_all(rt.stdout(), &file[..n])
}

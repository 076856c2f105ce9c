// Runs recorded calls on one node. vectors/README.md says what the lines are, what is written for each, and how the
// recorded ones are made.
#![tactic(auto)]

ghost use Rattle.std.specs.Prelude.{◌≡◌, ◌≤◌, length, IfOk};
ghost use Rattle.line_buffers.specs.Same.{SameBuffers};

use ids::{Refusal, Slot};
use line_buffers::{
    Buffers, GROUP_WORDS, ITEM_PLACES, ITEM_WORDS, LINE_BYTES, TEXT_BYTES, blank, read_full,
};
use line_host::Host;
use line_kind::{EditKind, Kind};
use line_reader::LineReader;
use node::{Node, Taken};
use roster_conf::RespondersConf;
use std::io;
use std::io::{Stdin, Stdout};

// Room for a piece behind the start of a line.
const PIECE_BYTES: usize = 65536;

// ---- what a line of document 01 does to the node and the draft

// What goes from line to line: the node, the draft and the population that its edits are for; how many words of the
// node's buffer and of the draft's rows are lent; how many lines were read.
#[derive(Clone, Copy)]
struct State {
    node: Node,
    draft: RespondersConf,
    population: u8,
    words: usize,
    rows: usize,
    lines: u64,
}

// What a line leaves that is taken: how many items it answers, which stand in the lent area, and what the next line
// finds.
#[derive(Clone, Copy)]
struct Done {
    count: usize,
    state: State,
}

fn called(from: State, a: Result<Taken, Refusal>) -> Result<Done, Refusal> {
    a.map(|Taken { node, count }| Done {
        count,
        state: State { node, ..from },
    })
}

// Makes a fresh node wherever it can, with an empty draft.
fn begin(from: State, mem: &mut [u64], reader: LineReader<'_>) -> Result<Done, Refusal> {
    let none = Host::fresh();
    let Taken { node, .. } = line_draft::node_line(none.node, mem, reader)?;
    Ok(Done {
        count: 0,
        state: State {
            node,
            draft: none.draft,
            population: node.population,
            ..from
        },
    })
}

fn edit(
    from: State,
    kind: EditKind,
    rows: &mut [u64],
    reader: LineReader<'_>,
) -> Result<Done, Refusal> {
    let draft = line_draft::edit_line(kind, from.draft, rows, from.population, reader)?;
    Ok(Done {
        count: 0,
        state: State { draft, ..from },
    })
}

fn show(
    state: State,
    rows: &[u64],
    area: &mut [u64],
    reader: LineReader<'_>,
) -> Result<Done, Refusal> {
    let count = line_draft::show_line(state.draft, rows, area, state.population, reader)?;
    Ok(Done { count, state })
}

fn done_by(
    state: State,
    buffers: &mut Buffers<'_>,
    kind: Kind,
    reader: LineReader<'_>,
) -> Result<Done, Refusal>
    requires { (length reader.line.now ≤ 1024) × (1542 ≤ length buffers.old.groups.now) }
    ensures { SameBuffers buffers.old buffers.new }
{
    let mem = &mut *buffers.mem;
    let rows = &mut *buffers.rows;
    let area = &mut *buffers.area;
    let groups = &mut *buffers.groups;
    // Each arm hands on other buffers.
    match kind {
        Kind::Node => begin(state, mem, reader),
        Kind::Edit(kind) => edit(state, kind, rows, reader),
        Kind::Show => show(state, rows, area, reader),
        Kind::Heard => called(
            state,
            line_calls::heard_line(state.node, mem, area, state.draft, rows, reader),
        ),
        Kind::Record => called(
            state,
            line_record::record_line(state.node, mem, area, groups, reader),
        ),
        Kind::Call(kind) => called(
            state,
            line_calls::call_line(kind, state.node, mem, area, reader),
        ),
        Kind::Unknown => Err(Refusal::Malformed),
    }
}

// ---- answers

fn say_sums(output: Stdout, node: u32, draft: u32) -> io::Result<()> {
    println!(output; "sum,{node},{draft}")
}

fn say_answer(
    output: Stdout,
    line: u64,
    done: Result<Done, Refusal>,
    area: &[u64],
) -> io::Result<()> {
    let acted = done.map(|done| done.count);
    let count = acted.unwrap_or(0);
    if ITEM_PLACES < count || area.len() < count * 6 {
        return Ok(());
    }
    let mut out: [u8; TEXT_BYTES] = blank();
    let end = line_answer::put_answer(&mut out, line, acted, area);
    output.write_all(&out[..end])
}

// ---- lines

// Begins a draft for a population that need not be the node's.
fn drafted(from: State, population: u64) -> State {
    match u8::try_from(population) {
        Ok(population) => State {
            draft: RespondersConf::empty(),
            population,
            ..from
        },
        Err(_) => from,
    }
}

// Start, commit and exec bar at a slot: no list of calls gets there soon.
fn jumped(from: State, bar: Slot) -> State {
    State {
        node: Node {
            start_slot: bar,
            commit_bar: bar,
            exec_bar: bar,
            ..from.node
        },
        ..from
    }
}

// A line that has no answer: `lend`, `draft`, `jump`, or the name of a script. A number that is missing is 0.
fn prepare(from: State, line: &[u8]) -> State {
    let mut reader = LineReader::new(line, 0);
    let _ = reader.next_field();
    let number = reader.next_number().unwrap_or(0);
    match line.first() {
        Some(b'l') => State {
            words: number as usize,
            rows: reader.next_number().unwrap_or(0) as usize,
            ..from
        },
        Some(b'd') => drafted(from, number),
        Some(b'j') => jumped(from, Slot(number)),
        _ => from,
    }
}

// Before the first line.
fn fresh() -> State {
    let Host { node, draft } = Host::fresh();
    State {
        node,
        draft,
        population: 0,
        words: Node::WORDS,
        rows: RespondersConf::WORDS,
        lines: 0,
    }
}

// Where the program writes, what it lends, and what goes from line to line.
#[derive(Drop)]
struct Program<'a> {
    output: Stdout,
    mem: &'a mut [u64],
    rows: &'a mut [u64],
    state: State,
}

impl Program<'_> {
    // A line of document 01, with places for so many items.
    fn call(&mut self, places: usize, line: &[u8]) -> io::Result<()>
        requires { (places ≤ 546) × (length line.now ≤ 1024) }
    {
        let mut reader = LineReader::new(line, 0);
        let name = reader.next_bytes().unwrap_or(&[]);
        let kind = line_kind::kind_of(name);
        let mut area: [u64; ITEM_WORDS] = blank();
        let mut groups: [u64; GROUP_WORDS] = blank();
        let words = self.state.words.min(self.mem.len());
        let rows = self.state.rows.min(self.rows.len());
        let mut buffers = Buffers {
            mem: &mut self.mem[..words],
            rows: &mut self.rows[..rows],
            area: &mut area[..places * 6],
            groups: &mut groups,
        };
        let done = done_by(self.state, &mut buffers, kind, reader);
        say_answer(self.output, self.state.lines, done, &area)?;
        if let Ok(done) = done {
            self.state = done.state;
        }
        say_sums(
            self.output,
            test_node_sum::of_node(self.state.node, self.mem),
            test_node_sum::of_roster(self.state.draft, self.rows),
        )
    }

    fn take(&mut self, line: &[u8]) -> io::Result<()> {
        self.state.lines = self.state.lines.wrapping_add(1);
        let mut reader = LineReader::new(line, 0);
        let Some(places) = reader.next_number() else {
            self.state = prepare(self.state, line);
            return Ok(());
        };
        match line.get(reader.at..) {
            Some(line) if line.len() <= LINE_BYTES => {
                self.call(ITEM_PLACES.min(places as usize), line)
            }
            _ => Ok(()),
        }
    }

    // Takes the lines that end in a piece, and returns where the one that has begun starts.
    fn drain(&mut self, piece: &[u8]) -> io::Result<usize>
        ensures { IfOk result (λ at. at ≤ length piece.now) }
    {
        let Some(last) = piece.iter().rposition(|b| *b == b'\n') else {
            return Ok(0);
        };
        for line in piece[..last].split(|b| *b == b'\n') {
            self.take(line)?;
        }
        Ok(last + 1)
    }

    // Reads pieces, each behind the bytes that were kept, and takes the lines that end in them.
    // A proved loop has to end, and nothing says that the input does: so it counts its turns, up to a number that no
    // run reaches.
    fn run(&mut self, mut input: Stdin, buf: &mut [u8]) -> io::Result<()>
        requires { length buf.old ≡ 65536 }
    {
        let mut have = 0;
        for _ in 0..u64::MAX {
            let end = have + read_full(&mut input, &mut buf[have..])?;
            if end == have {
                break;
            }
            let at = self.drain(&buf[..end])?;
            have = stream_pieces::keep(buf, at, end, false).have;
        }
        Ok(())
    }
}

fn main(rt: HostRuntime) -> io::Result<()> {
    let mut buf: [u8; PIECE_BYTES] = blank();
    let mut mem: [u64; Node::WORDS] = blank();
    let mut rows: [u64; RespondersConf::WORDS] = blank();
    let mut program = Program {
        output: rt.stdout(),
        mem: &mut mem,
        rows: &mut rows,
        state: fresh(),
    };
    program.run(rt.stdin(), &mut buf)
}

// An event line: what it does to the host, and the text that answers it. Host and buffers are lent; only a line that is
// taken changes the host.
#![tactic(auto)]

ghost use Rattle.std.specs.Prelude.{◌≡◌, true, ◌≤◌, length, if◌then◌else◌};
ghost use Rattle.line_fields.specs.Split.{fields_from};
ghost use Rattle.items.specs.Item.{places};
ghost use Rattle.node.specs.View.{ready};
ghost use Rattle.line_host.specs.Line.{line_by};
ghost use Rattle.line_host.specs.Follows.{host_of, sound, LineFollows, result_by};
ghost use Rattle.line_buffers.specs.Same.{SameBuffers};
ghost use Rattle.line_event.specs.Ways as ways;
ghost use Rattle.line_event.specs.Event.{whole, due_in, told, Stays, AnswersEvent};

use ids::Refusal;
use line_buffers::{Buffers, GROUP_WORDS, ITEM_PLACES, LINE_BYTES, TEXT_BYTES};
use line_host::Host;
use line_kind::Kind;
use line_reader::LineReader;
use node::{Node, Taken};
use roster_conf::RespondersConf;

// What a line did: how many items answer it; and where its text ends, a length, since the output is lent.
#[derive(Clone, Copy)]
pub struct LineAnswer {
    pub acted: Result<usize, Refusal>,
    pub end: usize,
}

// ---- what a call or an edit leaves

fn called(host: &mut Host, a: Result<Taken, Refusal>) -> Result<usize, Refusal>
    ensures stays { Stays host.old result host.new }
    ensures gives { told host.new result ≡ ways.called host.old a }
{
    let Taken { node, count } = a?;
    host.node = node;
    Ok(count)
}

fn edited(host: &mut Host, e: Result<RespondersConf, Refusal>) -> Result<usize, Refusal>
    ensures stays { Stays host.old result host.new }
    ensures gives { told host.new result ≡ ways.edited host.old e }
{
    host.draft = e?;
    Ok(0)
}

// 0 where no call made the node.
fn population_of(node: Node, mem: &[u64]) -> u8
    ensures { result ≡ (if ready node mem.now then node.population else 0) }
{
    if node::is_ready(node, mem) {
        node.population
    } else {
        0
    }
}

// ---- by the kind of the line

fn act(
    host: &mut Host,
    buffers: &mut Buffers<'_>,
    kind: Kind,
    reader: LineReader<'_>,
) -> Result<usize, Refusal>
    requires { (sound host.old.draft buffers.old.mem.now buffers.old.rows.now ≡ true) × (places buffers.old.area.now ≡ 546) × (1542 ≤ length buffers.old.groups.now) × (length reader.line.now ≤ 1024) }
    ensures same { SameBuffers buffers.old buffers.new }
    ensures stays { Stays host.old result host.new }
    ensures follows { let b = buffers.old in let b' = buffers.new in let fields = fields_from reader.entry.line.now reader.entry.at in LineFollows (result_by (host_of host.old b.mem.now b.rows.now) (line_by kind fields)) host.old b.mem.now b.rows.now b.area.now (told host.new result) b'.mem.now b'.rows.now b'.area.now }
{
    let Host { node, draft } = *host;
    let mem = &mut *buffers.mem;
    let rows = &mut *buffers.rows;
    let area = &mut *buffers.area;
    let groups = &mut *buffers.groups;
    // Each arm hands on other buffers to a line's own function.
    match kind {
        Kind::Node => called(host, line_draft::node_line(node, mem, reader)),
        Kind::Edit(edit) => {
            let population = population_of(node, mem);
            edited(
                host,
                line_draft::edit_line(edit, draft, rows, population, reader),
            )
        }
        Kind::Show => {
            let population = population_of(node, mem);
            line_draft::show_line(draft, rows, area, population, reader)
        }
        Kind::Heard => called(
            host,
            line_calls::heard_line(node, mem, area, draft, rows, reader),
        ),
        Kind::Record => called(
            host,
            line_record::record_line(node, mem, area, groups, reader),
        ),
        Kind::Call(call) => called(host, line_calls::call_line(call, node, mem, area, reader)),
        Kind::Unknown => Err(Refusal::Malformed),
    }
}

// Whether the lent buffers are long enough, with 546 places for items.
#[tactic(auto, unfolding(crate::specs::Event::whole))]
fn is_fit(host: Host, buffers: &Buffers<'_>) -> bool
    ensures { let b = buffers.now in result ≡ whole host.draft b.mem.now b.rows.now b.area.now b.groups.now }
{
    line_host::is_sound(host.draft, buffers.mem, buffers.rows)
        && items::places(buffers.area) == ITEM_PLACES
        && GROUP_WORDS <= buffers.groups.len()
}

// What a line does, 2 where the buffers do not fit.
fn hear(host: &mut Host, buffers: &mut Buffers<'_>, line: &[u8]) -> Result<usize, Refusal>
    ensures same { SameBuffers buffers.old buffers.new }
    ensures stays { Stays host.old result host.new }
    ensures follows { let b = buffers.old in let b' = buffers.new in LineFollows (due_in host.old b.mem.now b.rows.now b.area.now b.groups.now line.now) host.old b.mem.now b.rows.now b.area.now (told host.new result) b'.mem.now b'.rows.now b'.area.now }
{
    if !is_fit(*host, buffers) {
        return Err(Refusal::NotReady);
    }
    if LINE_BYTES < line.len() {
        return Err(Refusal::Malformed);
    }
    let mut reader = LineReader::new(line, 0);
    // A line has a field, if an empty one.
    let name = reader.next_bytes().unwrap();
    let kind = line_kind::kind_of(name);
    act(host, buffers, kind, reader)
}

// Done, and the text that answers it as the n-th line at the start of out, where that has room for any.
pub fn event(
    host: &mut Host,
    buffers: &mut Buffers<'_>,
    n: u64,
    line: &[u8],
    out: &mut [u8],
) -> LineAnswer
    ensures same { SameBuffers buffers.old buffers.new }
    ensures answers { let b = buffers.old in let b' = buffers.new in AnswersEvent host.old b.mem.now b.rows.now b.area.now b.groups.now n line.now out.old result host.new b'.mem.now b'.rows.now b'.area.now b'.groups.now out.new }
{
    if out.len() < TEXT_BYTES {
        return LineAnswer {
            acted: Err(Refusal::NotReady),
            end: 0,
        };
    }
    let acted = hear(host, buffers, line);
    let area = &mut *buffers.area;
    let end = line_answer::put_answer(out, n, acted, area);
    LineAnswer { acted, end }
}

// The record line of the event program: slot, ballot, and a request for each group of four fields.
#![tactic(auto)]

ghost use Rattle.std.specs.Prelude.{◌≡◌, ◌+◌, ◌*◌, ◌≤◌, length};
ghost use Rattle.words.specs.Writes.{writes};
ghost use Rattle.line_fields.specs.Split.{fields_from};
ghost use Rattle.line_host.specs.Line.{is_record, record_of};
ghost use Rattle.line_host.specs.Follows.{AnswersLine};
ghost use Rattle.line_record.specs.Groups.{row_of, TakesGroup, ReadsGroups};

use call_apply::Call;
use ids::{Ballot, Refusal, Slot};
use line_reader::LineReader;
use node::{Node, Taken};

// CLIENT,REQUEST,KEY,VALUE, the key by its start and length in the line, as a batch's row has it.
#[derive(Clone, Copy)]
struct Group {
    client: u64,
    request: u64,
    value: Option<u64>,
    start: u64,
    length: u64,
}

// The first group that is left. The reader moves on to the one after it.
fn group_at(reader: &mut LineReader<'_>) -> Option<Group>
    ensures { TakesGroup reader.old result reader.new }
{
    let client = reader.next_number()?;
    let request = reader.next_number()?;
    let key = reader.next_field();
    let value = reader.next_optional()?;
    Some(Group {
        client,
        request,
        value,
        start: key.start as u64,
        length: (key.end - key.start) as u64,
    })
}

// The i-th row. The kind of a command is a word of it: 1 for a Put.
fn put_group(groups: &mut [u64], i: usize, g: Group)
    requires { i * 6 + 6 ≤ length groups.old }
    ensures { groups.new ≡ writes groups.old (i * 6) (row_of g) }
{
    groups[i * 6..i * 6 + 6].copy_from_slice(&[
        g.client,
        g.request,
        u64::from(g.value.is_some()),
        g.value.unwrap_or(0),
        g.start,
        g.length,
    ]);
}

// The groups that are left, if the fields are whole groups: puts their rows, and says how many. A line of at most 1,024
// bytes has at most 257. The bound is in the clauses, since a reader may hold a longer line elsewhere.
fn groups_at(groups: &mut [u64], mut reader: LineReader<'_>) -> Option<usize>
    requires { (length reader.line.now ≤ 1024) × (1542 ≤ length groups.old) }
    ensures { ReadsGroups reader.entry.line.now reader.entry.at result groups.new }
{
    for count in 0..257 {
        if reader.is_ended() {
            return Some(count);
        }
        let group = group_at(&mut reader)?;
        put_group(groups, count, group);
    }
    Some(257)
}

// The fields after the line's name: SLOT,BALLOT and the groups.
pub fn record_line(
    node: Node,
    mem: &mut [u64],
    area: &mut [u64],
    groups: &mut [u64],
    mut reader: LineReader<'_>,
) -> Result<Taken, Refusal>
    requires { (length reader.line.now ≤ 1024) × (1542 ≤ length groups.old) }
    ensures { AnswersLine (is_record (fields_from reader.entry.line.now reader.entry.at)) (record_of (fields_from reader.entry.line.now reader.entry.at)) node mem.old area.old result mem.new area.new }
{
    let slot = reader.next_number().ok_or(Refusal::Malformed)?;
    let ballot = reader.next_number().ok_or(Refusal::Malformed)?;
    let count = groups_at(groups, reader).ok_or(Refusal::Malformed)?;
    let call = Call::Record {
        slot: Slot(slot),
        ballot: Ballot(ballot),
    };
    call_apply::apply(node, mem, area, call, &groups[..count * 6], reader.line)
}

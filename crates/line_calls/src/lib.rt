// The lines of the calls: a line's fields, from a position on, are the call's arguments. A line whose fields are not
// well-formed is refused 1.
#![tactic(auto)]

ghost use Rattle.std.specs.Prelude.{◌≡◌, true, [], length};
ghost use Rattle.line_kind.specs.declared.CallKind.TheVariants.{Read};
ghost use Rattle.line_fields.specs.Split.{fields_from};
ghost use Rattle.roster_conf.specs.Edits.{holds_rows};
ghost use Rattle.line_host.specs.Line.{is_heard, is_read, is_call, call_of};
ghost use Rattle.line_host.specs.Follows.{AnswersLine};
ghost use Rattle.line_calls.specs.Asks.{Asks, heard_by, ReadsHeard};

use call_apply::Call;
use ids::{Ballot, Refusal, Slot};
use line_kind::CallKind;
use line_reader::LineReader;
use node::{Node, Taken};
use roster_conf::RespondersConf;

// The call that a line's fields are. A read's key is a part of the line.
#[derive(Clone, Copy)]
struct Asked<'a> {
    call: Call,
    key: &'a [u8],
}

fn read_call<'a>(mut reader: LineReader<'a>) -> Option<Asked<'a>>
    ensures { Asks (is_read (fields_from reader.entry.line.now reader.entry.at)) (call_of Read (fields_from reader.entry.line.now reader.entry.at)) result }
{
    let client = reader.next_number()?;
    let request = reader.next_number()?;
    let leases = reader.next_number()?;
    let key = reader.next_bytes()?;
    reader.is_ended().then_some(Asked {
        call: Call::Read {
            client,
            request,
            leases,
        },
        key,
    })
}

// A call without a key.
fn keyless<'a>(call: Call) -> Asked<'a>
    ensures { (result.call ≡ call) × (result.key.now ≡ []) }
{
    Asked { call, key: &[] }
}

fn call_at<'a>(kind: CallKind, reader: LineReader<'a>) -> Option<Asked<'a>>
    ensures { Asks (is_call kind (fields_from reader.entry.line.now reader.entry.at)) (call_of kind (fields_from reader.entry.line.now reader.entry.at)) result }
{
    match kind {
        CallKind::Guard => {
            let [peer, number, bar] = reader.numbers::<3>()?;
            Some(keyless(Call::Guard {
                peer: line_host::replica(peer),
                number: Ballot(number),
                bar: Slot(bar),
            }))
        }
        CallKind::Prepared => {
            let [ballot] = reader.numbers::<1>()?;
            Some(keyless(Call::Prepared(Ballot(ballot))))
        }
        CallKind::Reply => {
            let [peer, slot, ballot] = reader.numbers::<3>()?;
            Some(keyless(Call::Reply {
                peer: line_host::replica(peer),
                slot: Slot(slot),
                ballot: Ballot(ballot),
            }))
        }
        CallKind::Notice => {
            let [peer, slot, ballot] = reader.numbers::<3>()?;
            Some(keyless(Call::Notice {
                peer: line_host::replica(peer),
                slot: Slot(slot),
                ballot: Ballot(ballot),
            }))
        }
        CallKind::Commit => {
            let [peer, ballot, bar] = reader.numbers::<3>()?;
            Some(keyless(Call::Commit {
                peer: line_host::replica(peer),
                ballot: Ballot(ballot),
                bar: Slot(bar),
            }))
        }
        CallKind::Bars => {
            let [start, accept, commit, exec] = reader.numbers::<4>()?;
            Some(keyless(Call::Bars {
                start: Slot(start),
                accept: Slot(accept),
                commit: Slot(commit),
                exec: Slot(exec),
            }))
        }
        CallKind::Read => read_call(reader),
        CallKind::Release => {
            let [slot] = reader.numbers::<1>()?;
            Some(keyless(Call::Release(Slot(slot))))
        }
    }
}

// The line of a call that only the node and its answer area take part in.
pub fn call_line(
    kind: CallKind,
    node: Node,
    mem: &mut [u64],
    area: &mut [u64],
    reader: LineReader<'_>,
) -> Result<Taken, Refusal>
    ensures { AnswersLine (is_call kind (fields_from reader.entry.line.now reader.entry.at)) (call_of kind (fields_from reader.entry.line.now reader.entry.at)) node mem.old area.old result mem.new area.new }
{
    let asked = call_at(kind, reader).ok_or(Refusal::Malformed)?;
    call_apply::apply(node, mem, area, asked.call, &[], asked.key)
}

// The heartbeat that the fields of a heard line are, with the draft where WITH is 1.
fn heard_call(draft: RespondersConf, reader: LineReader<'_>) -> Option<Call>
    ensures { ReadsHeard draft (fields_from reader.entry.line.now reader.entry.at) result }
{
    let [peer, ballot, with, commit, exec, snap] = reader.numbers::<6>()?;
    if 1 < with {
        return None;
    }
    Some(Call::Heartbeat {
        peer: line_host::replica(peer),
        ballot: Ballot(ballot),
        conf: (with == 1).then_some(draft),
        commit: Slot(commit),
        exec: Slot(exec),
        snap: Slot(snap),
    })
}

// A draft that is attached is whole.
pub fn heard_line(
    node: Node,
    mem: &mut [u64],
    area: &mut [u64],
    draft: RespondersConf,
    rows: &[u64],
    reader: LineReader<'_>,
) -> Result<Taken, Refusal>
    ensures { holds_rows (length rows.now) draft.count ≡ true → AnswersLine (is_heard (fields_from reader.entry.line.now reader.entry.at)) (heard_by draft rows.now (fields_from reader.entry.line.now reader.entry.at)) node mem.old area.old result mem.new area.new }
{
    let call = heard_call(draft, reader).ok_or(Refusal::Malformed)?;
    call_apply::apply(node, mem, area, call, rows, reader.line)
}

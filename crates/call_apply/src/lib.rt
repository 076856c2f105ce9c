// The ten calls as one: what a call carries by value is in `Call`; a roster's or a batch's rows, and the text of keys,
// are lent beside it. The calls themselves take the arguments one by one, as a host in C hands them over.
#![tactic(auto)]

ghost use Rattle.bodega.specs.Answers.{Answers};
ghost use Rattle.node.specs.View.{view, given_of};
ghost use Rattle.call_apply.specs.Call.{call_of, ready_for};

use ids::{Ballot, Refusal, Replica, Slot};
use node::{Node, Taken};
use roster_conf::RespondersConf;

#[derive(Clone, Copy)]
pub enum Call {
    Heartbeat {
        peer: Replica,
        ballot: Ballot,
        conf: Option<RespondersConf>,
        commit: Slot,
        exec: Slot,
        snap: Slot,
    },
    Guard {
        peer: Replica,
        number: Ballot,
        bar: Slot,
    },
    Prepared(Ballot),
    Record {
        slot: Slot,
        ballot: Ballot,
    },
    Reply {
        peer: Replica,
        slot: Slot,
        ballot: Ballot,
    },
    Notice {
        peer: Replica,
        slot: Slot,
        ballot: Ballot,
    },
    Commit {
        peer: Replica,
        ballot: Ballot,
        bar: Slot,
    },
    Bars {
        start: Slot,
        accept: Slot,
        commit: Slot,
        exec: Slot,
    },
    Read {
        client: u64,
        request: u64,
        leases: u64,
    },
    Release(Slot),
}

// By the enum, no closure: a call is a value, since lines are read as one and the definitions have lists of them.
pub fn apply(
    node: Node,
    mem: &mut [u64],
    area: &mut [u64],
    call: Call,
    rows: &[u64],
    text: &[u8],
) -> Result<Taken, Refusal>
    ensures { Answers (ready_for call rows.now) view (call_of call rows.now text.now) node mem.old area.old (given_of node result) mem.new area.new }
{
    match call {
        Call::Heartbeat {
            peer,
            ballot,
            conf,
            commit,
            exec,
            snap,
        } => call_heartbeat::heartbeat(
            node, mem, area, peer, ballot, conf, rows, commit, exec, snap,
        ),
        Call::Guard { peer, number, bar } => call_guard::guard(node, mem, area, peer, number, bar),
        Call::Prepared(ballot) => call_prepared::prepared(node, mem, area, ballot),
        Call::Record { slot, ballot } => call_record::record(
            node, mem, area, slot, ballot, rows, text,
        ),
        Call::Reply { peer, slot, ballot } => call_reply::reply(
            node, mem, area, peer, slot, ballot,
        ),
        Call::Notice { peer, slot, ballot } => call_notice::notice(
            node, mem, area, peer, slot, ballot,
        ),
        Call::Commit { peer, ballot, bar } => call_commit::commit(
            node, mem, area, peer, ballot, bar,
        ),
        Call::Bars {
            start,
            accept,
            commit,
            exec,
        } => call_bars::bars(node, mem, area, start, accept, commit, exec),
        Call::Read {
            client,
            request,
            leases,
        } => call_read::read(node, mem, area, client, request, leases, text),
        Call::Release(slot) => call_release::release(node, mem, area, slot),
    }
}

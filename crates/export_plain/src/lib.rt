// Nodes, rosters and answers as plain structs, for functions that are exported: one takes and gives no enum.
#![tactic(auto)]

ghost use Rattle.std.specs.Prelude.{◌≡◌};
ghost use Rattle.export_plain.specs.Plain.{node_of, plain_of, answered_by, answered_of, begun_by, begun_of, conf_of};

use ids::{Ballot, Refusal, Replica, Slot};
use node::{Node, Taken};
use roster_conf::RespondersConf;

// A node; has_leader is 0 where there is no leader. A number stands in place of an `Option`, here, in a roster and in
// the answer: the C interface has none. So are the counts numbers: what they count stands in lent words.
#[repr(C)]
#[derive(Clone, Copy, Default)]
pub struct Plain {
    pub id: u8,
    pub population: u8,
    pub quorum: u8,
    pub leader: u8,
    pub has_leader: u64,
    pub ranges: usize,
    pub default: u64,
    pub bal_max_seen: u64,
    pub bal_prep_sent: u64,
    pub bal_prepared: u64,
    pub start_slot: u64,
    pub accept_bar: u64,
    pub commit_bar: u64,
    pub exec_bar: u64,
    pub snap_bar: u64,
    pub peer_accept_max: u64,
    pub slots: usize,
}

// A roster but for its rows.
#[repr(C)]
#[derive(Clone, Copy)]
pub struct Roster {
    pub leader: u8,
    pub has_leader: u64,
    pub ranges: usize,
    pub default: u64,
}

// number is 0 where the call is taken, or the refusal.
#[repr(C)]
#[derive(Clone, Copy)]
pub struct PlainAnswered {
    pub number: u64,
    pub count: usize,
    pub node: Plain,
}

// By name, here and below, as the definitions are called that the entry points' clauses cite: `into` would hide which
// of the structs it makes.
pub fn conf_of(r: Roster) -> RespondersConf
    ensures { result ≡ conf_of r }
{
    RespondersConf {
        leader: (r.has_leader != 0).then_some(Replica(r.leader)),
        count: r.ranges,
        default: r.default,
    }
}

pub fn node_of(p: Plain) -> Node
    ensures { result ≡ node_of p }
{
    Node {
        id: Replica(p.id),
        population: p.population,
        quorum: p.quorum,
        bodega_conf: RespondersConf {
            leader: (p.has_leader != 0).then_some(Replica(p.leader)),
            count: p.ranges,
            default: p.default,
        },
        bal_max_seen: Ballot(p.bal_max_seen),
        bal_prep_sent: Ballot(p.bal_prep_sent),
        bal_prepared: Ballot(p.bal_prepared),
        start_slot: Slot(p.start_slot),
        accept_bar: Slot(p.accept_bar),
        commit_bar: Slot(p.commit_bar),
        exec_bar: Slot(p.exec_bar),
        snap_bar: Slot(p.snap_bar),
        peer_accept_max: Slot(p.peer_accept_max),
        slots: p.slots,
    }
}

fn plain_of(n: Node) -> Plain
    ensures { result ≡ plain_of n }
{
    Plain {
        id: n.id.0,
        population: n.population,
        quorum: n.quorum,
        leader: n.bodega_conf.leader.map_or(0, |l| l.0),
        has_leader: u64::from(n.bodega_conf.leader.is_some()),
        ranges: n.bodega_conf.count,
        default: n.bodega_conf.default,
        bal_max_seen: n.bal_max_seen.0,
        bal_prep_sent: n.bal_prep_sent.0,
        bal_prepared: n.bal_prepared.0,
        start_slot: n.start_slot.0,
        accept_bar: n.accept_bar.0,
        commit_bar: n.commit_bar.0,
        exec_bar: n.exec_bar.0,
        snap_bar: n.snap_bar.0,
        peer_accept_max: n.peer_accept_max.0,
        slots: n.slots,
    }
}

// What a call answered that was handed a plain node, by the number of its refusal, or 0: where it is refused, by
// whatever number, the handed node comes back.
pub fn answered_by(handed: Plain, number: u64, count: usize, node: Node) -> PlainAnswered
    ensures { result ≡ answered_by handed number count node }
{
    PlainAnswered {
        number,
        count,
        node: if number == 0 { plain_of(node) } else { handed },
    }
}

// The same from what the call gave: where it is refused, no items, and the handed node comes back.
pub fn answered(handed: Plain, a: Result<Taken, Refusal>) -> PlainAnswered
    ensures { result ≡ answered_of handed a }
{
    match a {
        Ok(taken) => answered_by(handed, 0, taken.count, taken.node),
        Err(refusal) => PlainAnswered {
            number: refusal.number(),
            count: 0,
            node: handed,
        },
    }
}

// A fresh node, or the number of a refusal and no node: all its fields are 0.
#[tactic(auto, unfolding(crate::specs::Plain::begun_by))]
pub fn begun_by(fresh: Result<Node, u64>) -> PlainAnswered
    ensures { result ≡ begun_by fresh }
{
    match fresh {
        Ok(node) => answered_by(Plain::default(), 0, 0, node),
        Err(number) => PlainAnswered {
            number,
            count: 0,
            node: Plain::default(),
        },
    }
}

// The same by the refusal.
#[tactic(auto, unfolding(crate::specs::Plain::begun_by, crate::specs::Plain::begun_of))]
pub fn begun(fresh: Result<Node, Refusal>) -> PlainAnswered
    ensures { result ≡ begun_of fresh }
{
    begun_by(fresh.map_err(|refusal| refusal.number()))
}

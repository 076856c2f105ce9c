// The peers' exec bars in lent words, one for each replica; the own place is not read. The words are a part of a node's
// buffer, its numbers go by value (document 01), the peer is the call's: so they come apart, and bounds are in clauses.
#![tactic(auto)]

ghost use Rattle.std.specs.Prelude.{◌≡◌, ◌||◌, ◌≤◌, ◌<◌, max, leb, eqb, length, get_or};
ghost use Rattle.words.specs.Tab.{words_from};
ghost use Rattle.peer_exec_bar.specs.Execs.{all_passed, Hears, HearsPeer};

use ids::{Replica, Slot};

// `passed_cnt == population`.
pub fn passed(execs: &[u64], population: u8, id: Replica, exec: Slot) -> bool
    requires { population ≤ length execs.now }
    ensures { result ≡ all_passed population id.0 exec.0 (words_from population execs.now 0) }
{
    (0..population as usize).all(|i| i == id.0 as usize || exec.0 <= execs[i])
}

// A peer's exec bar, if larger than known; the snap bar then.
pub fn heard_exec(
    execs: &mut [u64],
    population: u8,
    id: Replica,
    snap_bar: Slot,
    peer: Replica,
    exec: Slot,
) -> Slot
    requires { (population ≤ length execs.old) × (peer.0 < population) }
    ensures { Hears population id.0 peer.0 exec.0 snap_bar.0 execs.old result.0 execs.new }
{
    let i = peer.0 as usize;
    if exec.0 <= execs[i] {
        return snap_bar;
    }
    execs[i] = exec.0;
    if passed(execs, population, id, exec) {
        exec
    } else {
        snap_bar
    }
}

// A heartbeat's exec and snap bar, where it is a peer's; the snap bar then.
pub fn heard_peer(
    execs: &mut [u64],
    population: u8,
    id: Replica,
    snap_bar: Slot,
    peer: Replica,
    exec: Slot,
    snap: Slot,
) -> Slot
    requires { (population ≤ length execs.old) × (peer.0 < population) }
    ensures { HearsPeer population id.0 peer.0 exec.0 snap.0 snap_bar.0 execs.old result.0 execs.new }
{
    if peer == id {
        return snap_bar;
    }
    heard_exec(execs, population, id, snap_bar, peer, exec).max(snap)
}

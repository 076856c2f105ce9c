// `peer_accept_bar` of conflease.rs: a guard's number and bar for each replica, in lent words, and the reading bar
// worked out from them.
#![tactic(auto)]

ghost use Rattle.std.specs.Prelude.{◌≡◌, ◌≤◌, ◌<◌, length, get_or, set};
ghost use Rattle.ids.specs.Limits.{replicas};
ghost use Rattle.layout.specs.Layout.{pair_words};
ghost use Rattle.bodega.specs.Replica.{pair, fresh_pair};
ghost use Rattle.bodega.specs.Conflease.{counted, newer as is_newer};
ghost use Rattle.peer_accept_bar.specs.Pairs.{pairs_of, peer_accept, accept_max, guarded};

use ids::{Ballot, Replica, Slot};

// A guard's number and bar.
#[derive(Clone, Copy)]
pub struct Pair {
    pub number: Ballot,
    pub bar: Slot,
}

impl Pair {
    // A larger number, or an equal one with a smaller bar.
    fn is_newer(self, was: Pair) -> bool
        ensures { result ≡ is_newer (pair was.number.0 was.bar.0) self.number.0 self.bar.0 }
    {
        was.number < self.number || (self.number == was.number && self.bar < was.bar)
    }

    fn counted(self, ballot: Ballot) -> Slot
        ensures { result.0 ≡ counted ballot.0 (pair self.number.0 self.bar.0) }
    {
        if self.number == ballot {
            self.bar
        } else {
            Slot::BEYOND
        }
    }
}

// A replica's pair. Here and below words, population and quorum are apart, each with what it is asked: a struct that
// lends the words was tried, and the proof of a caller that lends a part of its buffer through it did not close.
#[tactic(auto, using(crate::proofs::Laws::pair_at))]
fn get(pairs: &[u64], population: u8, peer: Replica) -> Pair
    requires { (peer.0 < population) × (population ≤ replicas) × (pair_words ≤ length pairs.now) }
    ensures { pair result.number.0 result.bar.0 ≡ get_or (pairs_of population pairs.now) peer.0 fresh_pair }
{
    let i = peer.0 as usize;
    Pair {
        number: Ballot(pairs[i]),
        bar: Slot(pairs[layout::BARS_AT + i]),
    }
}

// `peer_accept_bar.insert`.
#[tactic(auto, using(crate::proofs::Laws::pairs_moved))]
pub fn insert(pairs: &mut [u64], population: u8, peer: Replica, guard: Pair)
    requires { (peer.0 < population) × (population ≤ replicas) × (pair_words ≤ length pairs.old) }
    ensures pairs { pairs_of population pairs.new ≡ set (pairs_of population pairs.old) peer.0 (pair guard.number.0 guard.bar.0) }
    ensures long { length pairs.new ≡ length pairs.old }
{
    let i = peer.0 as usize;
    pairs[i] = guard.number.0;
    pairs[layout::BARS_AT + i] = guard.bar.0;
}

// `update_peer_accept_max`: the quorum-th smallest bar, counting only those on the ballot. The bars stand in an array:
// there is no heap.
#[tactic(auto, using(crate::proofs::Laws::filled, crate::proofs::Laws::length_pairs))]
pub fn accept_max(pairs: &[u64], population: u8, quorum: u8, ballot: Ballot) -> Slot
    requires { (0 < quorum) × (quorum ≤ population) × (population ≤ replicas) × (pair_words ≤ length pairs.now) }
    ensures { result.0 ≡ accept_max quorum ballot.0 (pairs_of population pairs.now) }
{
    let mut bars = [0; layout::REPLICA_PLACES];
    for i in 0..population {
        bars[i as usize] = get(pairs, population, Replica(i)).counted(ballot).0;
    }
    Slot(rank::kth(&bars[..population as usize], quorum as usize))
}

// A peer's guard: where it alters the pair the reading bar is worked out anew; gives the reading bar.
pub fn guard_accept_bar(
    pairs: &mut [u64],
    population: u8,
    quorum: u8,
    ballot: Ballot,
    max: Slot,
    peer: Replica,
    guard: Pair,
) -> Slot
    requires { (0 < quorum) × (quorum ≤ population) × (population ≤ replicas) × (peer.0 < population) × (pair_words ≤ length pairs.old) }
    ensures accepts { peer_accept population pairs.new result.0 ≡ guarded quorum ballot.0 peer.0 guard.number.0 guard.bar.0 (peer_accept population pairs.old max.0) }
    ensures long { length pairs.new ≡ length pairs.old }
{
    if !guard.is_newer(get(pairs, population, peer)) {
        return max;
    }
    insert(pairs, population, peer, guard);
    accept_max(pairs, population, quorum, ballot)
}

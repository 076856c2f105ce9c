// The call *guard*: a peer's guard, and the reading bar worked out anew where it alters the peer's pair.
#![tactic(auto)]

ghost use Rattle.std.specs.Prelude.{◌≡◌};
ghost use Rattle.bodega.specs.Replica.{Guard};
ghost use Rattle.bodega.specs.Answers.{Answers};
ghost use Rattle.node.specs.View.{view, ready, given_of};
ghost use Rattle.call_guard.specs.Guard.{guard_refusal};
ghost use Rattle.ids.specs.Refusal.{refused_by};

use ids::{Ballot, Refusal, Replica, Slot};
use node::{Node, Taken};
use peer_accept_bar::Pair;

// Refusals 3, 8 and 10. Population and own number are the node's, and come as the definition has them.
fn guard_refusal(population: u8, id: Replica, peer: Replica, bar: Slot) -> Result<(), Refusal>
    ensures { refused_by result ≡ guard_refusal population id.0 peer.0 bar.0 }
{
    if population <= peer.0 {
        return Err(Refusal::NoSuchReplica);
    }
    if Slot::TOP < bar {
        return Err(Refusal::SlotTooLarge);
    }
    if peer == id {
        return Err(Refusal::OwnGuard);
    }
    Ok(())
}

pub fn guard(
    node: Node,
    mem: &mut [u64],
    area: &[u64],
    peer: Replica,
    number: Ballot,
    bar: Slot,
) -> Result<Taken, Refusal>
    ensures { Answers ready view (Guard peer.0 number.0 bar.0) node mem.old area.now (given_of node result) mem.new area.now }
{
    if !node::is_ready(node, mem) {
        return Err(Refusal::NotReady);
    }
    guard_refusal(node.population, node.id, peer, bar)?;
    let peer_accept_max = peer_accept_bar::guard_accept_bar(
        &mut mem[0..layout::EXECS_AT],
        node.population,
        node.quorum,
        node.bal_max_seen,
        node.peer_accept_max,
        peer,
        Pair { number, bar },
    );
    Ok(Taken {
        node: Node {
            peer_accept_max,
            ..node
        },
        count: 0,
    })
}

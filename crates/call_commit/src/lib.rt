// The call *commit*: a commit notice of the current ballot marks slots from the commit bar on Committed.
#![tactic(auto)]

ghost use Rattle.std.specs.Prelude.{◌≡◌};
ghost use Rattle.bodega.specs.Replica.{CommitNotice};
ghost use Rattle.bodega.specs.Answers.{Answers};
ghost use Rattle.node.specs.View.{view, ready, given_of};
ghost use Rattle.call_commit.specs.Commit.{commit_refusal};
ghost use Rattle.ids.specs.Refusal.{refused_by};

use ids::{Ballot, Refusal, Replica, Slot};
use items::Items;
use node::{Node, Taken};

// Refusals 3 and 8. The population is the node's, the peer the call's.
fn commit_refusal(population: u8, peer: Replica, bar: Slot) -> Result<(), Refusal>
    ensures { refused_by result ≡ commit_refusal population peer.0 bar.0 }
{
    if population <= peer.0 {
        return Err(Refusal::NoSuchReplica);
    }
    if Slot::TOP < bar {
        return Err(Refusal::SlotTooLarge);
    }
    Ok(())
}

pub fn commit(
    node: Node,
    mem: &mut [u64],
    area: &mut [u64],
    peer: Replica,
    ballot: Ballot,
    bar: Slot,
) -> Result<Taken, Refusal>
    ensures { Answers ready view (CommitNotice peer.0 ballot.0 bar.0) node mem.old area.old (given_of node result) mem.new area.new }
{
    if !node::is_ready(node, mem) {
        return Err(Refusal::NotReady);
    }
    commit_refusal(node.population, peer, bar)?;
    if ballot != node.bal_max_seen {
        return Ok(Taken { node, count: 0 });
    }
    let window = node_insts::window(node, mem);
    let count = advance_commit_bar::count_commits(
        node_insts::insts(mem),
        window,
        node.commit_bar,
        ballot,
        bar,
    );
    items::has_room(area, count)?;
    advance_commit_bar::advance(
        &mut mem[layout::SLOTS_AT..layout::WRITTEN_AT],
        window,
        node.commit_bar,
        ballot,
        bar,
        &mut Items { area, count: 0 },
    );
    Ok(Taken { node, count })
}

// The call *prepared*: the ballot is prepared.
#![tactic(auto)]

ghost use Rattle.std.specs.Prelude.{◌≡◌};
ghost use Rattle.ids.specs.Leader.{leader_of};
ghost use Rattle.bodega.specs.Replica.{Prepared};
ghost use Rattle.bodega.specs.Answers.{Answers};
ghost use Rattle.node.specs.View.{view, ready, given_of};
ghost use Rattle.call_prepared.specs.Prepared.{may_prepare};

use ids::{Ballot, Refusal};
use node::{Node, Taken};

fn may_prepare(node: Node, ballot: Ballot) -> bool
    ensures { result ≡ may_prepare (leader_of node.bodega_conf.leader) node.id.0 node.bal_prep_sent.0 ballot.0 }
{
    node::is_leader(node) && ballot.0 != 0 && ballot == node.bal_prep_sent
}

pub fn prepared(node: Node, mem: &[u64], area: &[u64], ballot: Ballot) -> Result<Taken, Refusal>
    ensures { Answers ready view (Prepared ballot.0) node mem.now area.now (given_of node result) mem.now area.now }
{
    if !node::is_ready(node, mem) {
        return Err(Refusal::NotReady);
    }
    if !may_prepare(node, ballot) {
        return Err(Refusal::BallotNotCurrent);
    }
    Ok(Taken {
        node: Node {
            bal_prepared: ballot,
            ..node
        },
        count: 0,
    })
}

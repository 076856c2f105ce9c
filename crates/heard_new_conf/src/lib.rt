// `heard_new_conf`: a roster adopted at a ballot, and the step-up where it names the replica leader; for the calls that
// adopt one.
#![tactic(auto)]

ghost use Rattle.std.specs.Prelude.{◌≡◌, true, List, ℕ, ◌+◌, ◌≤◌, ◌<◌, length, set};
ghost use Rattle.words.specs.Part.{Untouched};
ghost use Rattle.ids.specs.Limits.{replicas};
ghost use Rattle.layout.specs.Layout.{replica_places, slot_places, pair_words, node_words};
ghost use Rattle.items.specs.Item.{places};
ghost use Rattle.roster_conf.specs.Conf.{leads};
ghost use Rattle.roster_conf.specs.Edits.{view as roster_of};
ghost use Rattle.bodega.specs.Replica.{pair};
ghost use Rattle.bodega.specs.Conflease.{adopted, become_a_leader, heard_new_conf};
ghost use Rattle.peer_accept_bar.specs.Pairs.{pairs_of, accept_max};
ghost use Rattle.become_a_leader.specs.StepUp.{slots_after};
ghost use Rattle.node.specs.View.{view, ready};
ghost use Rattle.heard_new_conf.specs.Does.{Does, whole};
ghost use Rattle.heard_new_conf.specs.Forgets.{Forgets};

use ids::{Ballot, Replica, Slot};
use items::Items;
use node::Node;
use peer_accept_bar::Pair;
use release_held_reads::ReplicaGroup;
use roster_conf::RespondersConf;

// The own guard, at the ballot and the accept bar; gives the reading bar worked out anew. Words, population and quorum
// come apart as in peer_accept_bar.
fn guard_itself(
    pairs: &mut [u64],
    population: u8,
    quorum: u8,
    id: Replica,
    ballot: Ballot,
    accept: Slot,
) -> Slot
    requires { (0 < quorum) × (quorum ≤ population) × (population ≤ replicas) × (id.0 < population) × (pair_words ≤ length pairs.old) }
    ensures { (pairs_of population pairs.new ≡ set (pairs_of population pairs.old) id.0 (pair ballot.0 accept.0)) × (result.0 ≡ accept_max quorum ballot.0 (pairs_of population pairs.new)) × (length pairs.new ≡ length pairs.old) }
{
    let guard = Pair {
        number: ballot,
        bar: accept,
    };
    peer_accept_bar::insert(pairs, population, id, guard);
    peer_accept_bar::accept_max(pairs, population, quorum, ballot)
}

// The roster and the ballot, and the guards that they make anew.
fn adopt(node: Node, mem: &mut [u64], ballot: Ballot, conf: RespondersConf, rows: &[u64]) -> Node
    requires { (ready node mem.old ≡ true) × (whole conf.count rows.now ≡ true) }
    ensures { (view result mem.new ≡ adopted (view node mem.old) ballot.0 (roster_of conf rows.now)) × (length mem.new ≡ length mem.old) × (ready result mem.new ≡ true) × Untouched node_words mem.old mem.new }
{
    roster_compare::copy(conf, rows, &mut mem[layout::ROWS_AT..layout::SLOTS_AT]);
    let peer_accept_max = guard_itself(
        &mut mem[0..layout::EXECS_AT],
        node.population,
        node.quorum,
        node.id,
        ballot,
        node.accept_bar,
    );
    Node {
        bodega_conf: conf,
        bal_max_seen: ballot,
        peer_accept_max,
        ..node
    }
}

// What is known of the peers' exec bars is forgotten.
#[tactic(auto, using(crate::proofs::Laws::forgets))]
fn forget(execs: &mut [u64])
    requires { replica_places ≤ length execs.old }
    ensures { Forgets execs.old execs.new }
{
    execs.fill(0);
}

// The slots and the items of a step-up, at the ballot that is seen, which is not prepared yet.
fn become_a_leader(node: Node, mem: &mut [u64], items: &mut Items<'_>) -> Node
    requires { (ready node mem.old ≡ true) × (slots_after node.slots (view node mem.old).insts ≤ slot_places) × (items.old.count + length (become_a_leader (view node mem.old)).items ≤ places items.old.area.now) }
    ensures same_area { items.new.area.ghost_name ≡ items.old.area.ghost_name }
    ensures does { Does (become_a_leader (view node mem.old)) items.old.count mem.old items.old.area.now result items.new.count mem.new items.new.area.now }
{
    let window = node_insts::window(node, mem);
    let group = ReplicaGroup {
        quorum: node.quorum,
        leader: node.bodega_conf.leader,
    };
    let slots = become_a_leader::become_a_leader(
        &mut mem[layout::SLOTS_AT..layout::WRITTEN_AT],
        window,
        group,
        node.bal_max_seen,
        items,
    );
    forget(&mut mem[layout::EXECS_AT..layout::ROWS_AT]);
    Node {
        bal_prep_sent: node.bal_max_seen,
        bal_prepared: Ballot(0),
        slots,
        ..node
    }
}

// How many items an adoption has.
pub fn count_new_conf(node: Node, mem: &[u64], conf: RespondersConf) -> usize
    requires { ready node mem.now ≡ true }
    ensures { (ballot : ℕ) (rows : List ℕ) → result ≡ length (heard_new_conf (view node mem.now) ballot (roster_of conf rows)).items }
{
    if !node::leads(conf.leader, node.id) {
        return 0;
    }
    become_a_leader::count_items(node_insts::insts(mem), node_insts::window(node, mem))
}

// An adoption, with a step-up where the roster names the replica leader.
pub fn heard_new_conf(
    node: Node,
    mem: &mut [u64],
    ballot: Ballot,
    conf: RespondersConf,
    rows: &[u64],
    items: &mut Items<'_>,
) -> Node
    requires { (ready node mem.old ≡ true) × (whole conf.count rows.now ≡ true) × (leads (roster_of conf rows.now) node.id.0 ≡ true → slots_after node.slots (view node mem.old).insts ≤ slot_places) × (items.old.count + length (heard_new_conf (view node mem.old) ballot.0 (roster_of conf rows.now)).items ≤ places items.old.area.now) }
    ensures same_area { items.new.area.ghost_name ≡ items.old.area.ghost_name }
    ensures does { Does (heard_new_conf (view node mem.old) ballot.0 (roster_of conf rows.now)) items.old.count mem.old items.old.area.now result items.new.count mem.new items.new.area.now }
{
    let next = adopt(node, mem, ballot, conf, rows);
    if node::leads(conf.leader, node.id) {
        become_a_leader(next, mem, items)
    } else {
        next
    }
}

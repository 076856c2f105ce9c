// The call *notice*: a peer has accepted a slot. One of a higher ballot makes the replica give up its roles.
#![tactic(auto)]

ghost use Rattle.std.specs.Prelude.{◌≡◌, ◌&&◌, not, ◌≤◌, ◌<◌, eqb, length};
ghost use Rattle.ids.specs.Leader.{leader_of};
ghost use Rattle.layout.specs.Layout.{roster_words, slot_places, slot_words};
ghost use Rattle.items.specs.Item.{places};
ghost use Rattle.roster_conf.specs.Conf.{into_filtered};
ghost use Rattle.roster_conf.specs.Edits.{view as roster_of};
ghost use Rattle.bodega.specs.Replica.{Notice as Call};
ghost use Rattle.bodega.specs.Answers.{Answers};
ghost use Rattle.insts.specs.Slots.{insts_of};
ghost use Rattle.accept_notice_at.specs.Notices.{noticed_at, NotesAt};
ghost use Rattle.node.specs.View.{view, ready, given_of, leads_it};
ghost use Rattle.call_notice.specs.Notice.{notice_refusal, StepsDown};
ghost use Rattle.ids.specs.Refusal.{refused_by};

use accept_notice_at::Notice;
use ids::{Ballot, Refusal, Replica, Slot};
use insts::{InstsMut, Window};
use items::{Item, Items};
use node::{Node, Taken};
use release_held_reads::ReplicaGroup;
use roster_conf::RespondersConf;

// Whether a notice is of the ballot of a replica that does not lead.
fn is_current(node: Node, ballot: Ballot) -> bool
    ensures { result ≡ not (leads_it (leader_of node.bodega_conf.leader) node.id.0) && eqb ballot.0 node.bal_max_seen.0 }
{
    !node::is_leader(node) && ballot == node.bal_max_seen
}

// Refusals 3, 8 and 15.
fn notice_refusal(
    population: u8,
    current: bool,
    window: Window,
    peer: Replica,
    slot: Slot,
) -> Result<(), Refusal>
    ensures { refused_by result ≡ notice_refusal population current window.start.0 peer.0 slot.0 }
{
    if population <= peer.0 {
        return Err(Refusal::NoSuchReplica);
    }
    if Slot::TOP < slot {
        return Err(Refusal::SlotTooLarge);
    }
    if current && window.slot(Node::WINDOW) <= slot {
        return Err(Refusal::WindowFull);
    }
    Ok(())
}

// The roster without a replica.
fn filtered(conf: RespondersConf, rows: &mut [u64], population: u8, id: Replica) -> RespondersConf
    requires { (id.0 < population) × (population ≤ 64) × (conf.count ≤ 64) × (roster_words ≤ length rows.old) }
    ensures { (roster_of result rows.new ≡ into_filtered id.0 (roster_of conf rows.old)) × (result.count ≤ 64) × (length rows.new ≡ length rows.old) }
{
    conf.into_filtered(rows, population, id).unwrap_or(conf)
}

// A leader says that it steps down; how many items that has, or the area as it was where there is no place.
fn put_lead(area: &mut [u64], led: bool) -> Result<usize, Refusal>
    ensures { StepsDown led area.old result area.new }
{
    if !led {
        return Ok(0);
    }
    items::put_item(area, 0, Item::Lead(false))?;
    Ok(1)
}

// A notice at the k-th slot of the window, its items from the first place on. The words come whole: a struct made of a
// part of the buffer would lose what became of the part.
fn notice_in(
    words: &mut [u64],
    window: Window,
    k: usize,
    group: ReplicaGroup,
    notice: Notice,
    area: &mut [u64],
) -> usize
    requires below { (k < slot_places) × (slot_words ≤ length words.old) }
    requires room { length (noticed_at group.quorum (leader_of group.leader) notice.peer.0 notice.ballot.0 k (insts_of window.start.0 window.held words.old)).items ≤ places area.old }
    ensures { NotesAt group.quorum (leader_of group.leader) notice.peer.0 notice.ballot.0 window.start.0 window.held k 0 words.old area.old result words.new area.new }
{
    let mut insts = InstsMut { words };
    let mut items = Items { area, count: 0 };
    accept_notice_at::notice_at(&mut insts, window, k, group, notice, &mut items);
    items.count
}

pub fn notice(
    node: Node,
    mem: &mut [u64],
    area: &mut [u64],
    peer: Replica,
    slot: Slot,
    ballot: Ballot,
) -> Result<Taken, Refusal>
    ensures { Answers ready view (Call peer.0 slot.0 ballot.0) node mem.old area.old (given_of node result) mem.new area.new }
{
    if !node::is_ready(node, mem) {
        return Err(Refusal::NotReady);
    }
    let window = node_insts::window(node, mem);
    let current = is_current(node, ballot);
    notice_refusal(node.population, current, window, peer, slot)?;
    if slot < node.start_slot {
        return Ok(Taken { node, count: 0 });
    }
    if node.bal_max_seen < ballot {
        let count = put_lead(area, node::is_leader(node))?;
        let bodega_conf = filtered(
            node.bodega_conf,
            &mut mem[layout::ROWS_AT..layout::SLOTS_AT],
            node.population,
            node.id,
        );
        let node = Node {
            bodega_conf,
            bal_max_seen: ballot,
            ..node
        };
        return Ok(Taken { node, count });
    }
    if !current {
        return Ok(Taken { node, count: 0 });
    }
    let k = window.number(slot);
    let notice = Notice { peer, ballot };
    let due = accept_notice_at::due(node_insts::insts(mem), window, k, node.quorum, notice);
    items::has_room(area, due)?;
    let group = ReplicaGroup {
        quorum: node.quorum,
        leader: node.bodega_conf.leader,
    };
    let count = notice_in(
        &mut mem[layout::SLOTS_AT..layout::WRITTEN_AT],
        window,
        k,
        group,
        notice,
        area,
    );
    let slots = accept_notice_at::held_after(node.slots, k);
    Ok(Taken {
        node: Node { slots, ..node },
        count,
    })
}

// The call *reply*: a peer's accept reply. Accepts that the peer seems to have missed are sent again, its ack is taken,
// and a slot whose acks suffice commits. Peer, slot and ballot come one by one, as the call has them.
#![tactic(auto)]

ghost use Rattle.std.specs.Prelude.{◌≡◌, ◌+◌, ◌-◌, ◌*◌, ◌≤◌, length};
ghost use Rattle.words.specs.Part.{part};
ghost use Rattle.words.specs.Writes.{writes};
ghost use Rattle.ids.specs.Leader.{leader_of};
ghost use Rattle.layout.specs.Layout.{slot_places, slot_words, roster_words, rows_at, slots_at, node_words};
ghost use Rattle.items.specs.Item.{encode, places};
ghost use Rattle.bodega.specs.Replica.{Reply, is_accepting};
ghost use Rattle.bodega.specs.Answers.{Answers};
ghost use Rattle.inst_cell.specs.Cell.{status_of};
ghost use Rattle.insts.specs.Slots.{short_at, batch_at, place_of, PutsShort};
ghost use Rattle.roster_conf.specs.Edits.{view as roster_of};
ghost use Rattle.node.specs.View.{view, ready, given_of};
ghost use Rattle.call_reply.specs.Resends.{missed_of, resends_of};
ghost use Rattle.call_reply.specs.Acks.{with_acks, acks_with, ack_of, commits_by, commit_items, Acts};
ghost use Rattle.call_reply.specs.Replies.{unheld, reply_refusal, awaited, span, items_of, Replies};
ghost use Rattle.ids.specs.Refusal.{refused_by};

use ids::{Ballot, Refusal, Replica, Slot};
use inst_cell::{Cell, Status};
use insts::{Insts, InstsMut, Window};
use items::{Item, Items};
use node::{Node, Taken};
use roster_conf::RespondersConf;

// ---- `resend_missed_accepts`

// What it does at a slot: nothing, stop there, send its Accept. Three ways, so no Option.
#[derive(Clone, Copy)]
enum Missed {
    Skip,
    Stop,
    Send,
}

fn is_accepting(status: Status) -> bool
    ensures { result ≡ is_accepting (status_of status) }
{
    matches!(status, Status::Accepting)
}

#[tactic(auto, unfolding(crate::specs::Resends::missed_of))]
fn missed_at(insts: Insts<'_>, slot: Slot, peer: Replica, prepared: Ballot) -> Missed
    ensures { result ≡ missed_of (short_at insts.entry.words.now (place_of slot.0)) peer.0 prepared.0 }
{
    let cell = insts.load(slot);
    match cell.leader_bk {
        Some(acks) if is_accepting(cell.status) => {
            if bitmap::get(acks, peer) {
                Missed::Stop
            } else if cell.bal == prepared {
                Missed::Send
            } else {
                Missed::Skip
            }
        }
        _ => Missed::Skip,
    }
}

// How many Accepts are sent again, of the slots from the commit bar up to one, the last of them first. They are counted
// and then put, two walks over the same slots, since a call that lacks places leaves all as it was.
fn count_resends(insts: Insts<'_>, commit: Slot, to: Slot, peer: Replica, prepared: Ballot) -> usize
    ensures { (result ≡ length (resends_of insts.entry.words.now commit.0 peer.0 prepared.0 (to.0 - commit.0))) × (result ≤ to.0 - commit.0) }
{
    let mut count = 0;
    for slot in (commit.0..to.0).rev() {
        match missed_at(insts, Slot(slot), peer, prepared) {
            Missed::Skip => {}
            Missed::Stop => return count,
            Missed::Send => count += 1,
        }
    }
    count
}

// The items of the same slots.
fn put_resends(
    insts: Insts<'_>,
    commit: Slot,
    to: Slot,
    peer: Replica,
    prepared: Ballot,
    items: &mut Items<'_>,
)
    requires { items.old.count + length (resends_of insts.words.now commit.0 peer.0 prepared.0 (to.0 - commit.0)) ≤ places items.old.area.now }
    ensures same_reference { items.new.area.ghost_name ≡ items.old.area.ghost_name }
    ensures counted { items.new.count ≡ items.old.count + length (resends_of insts.entry.words.now commit.0 peer.0 prepared.0 (to.0 - commit.0)) }
    ensures put { items.new.area.now ≡ writes items.old.area.now (items.old.count * 6) (encode (resends_of insts.entry.words.now commit.0 peer.0 prepared.0 (to.0 - commit.0))) }
{
    for n in (commit.0..to.0).rev() {
        let slot = Slot(n);
        match missed_at(insts, slot, peer, prepared) {
            Missed::Skip => {}
            Missed::Stop => return,
            Missed::Send => {
                items.push(Item::Resend { slot, peer });
            }
        }
    }
}

// ---- the ack

// What an ack does at its slot, and the acks with it. Three ways, so no Option.
#[derive(Clone, Copy)]
enum Ack {
    Ignored,
    Marks(u64),
    Commits(u64),
}

// None where the slot does not wait for it.
#[tactic(auto, unfolding(crate::specs::Acks::acks_with, bitmap::specs::Bitmap::set_to))]
fn acks_with(insts: Insts<'_>, slot: Slot, peer: Replica, ballot: Ballot) -> Option<u64>
    ensures { result ≡ acks_with (short_at insts.entry.words.now (place_of slot.0)) peer.0 ballot.0 }
{
    let cell = insts.load(slot);
    if !is_accepting(cell.status) || ballot < cell.bal {
        return None;
    }
    let before = cell.leader_bk?;
    if bitmap::get(before, peer) {
        None
    } else {
        Some(bitmap::set(before, peer, true))
    }
}

// From the slots' words and the roster's rows.
#[tactic(auto, unfolding(crate::specs::Acks::ack_of))]
fn ack_at(
    insts: Insts<'_>,
    rows: &[u64],
    slot: Slot,
    peer: Replica,
    ballot: Ballot,
    quorum: u8,
    conf: RespondersConf,
) -> Ack
    requires { (roster_words ≤ length rows.now) × (conf.count ≤ 64) }
    ensures { result ≡ ack_of (short_at insts.entry.words.now (place_of slot.0)) (batch_at insts.entry.words.now (place_of slot.0)) peer.0 ballot.0 quorum (roster_of conf rows.now) }
{
    match acks_with(insts, slot, peer, ballot) {
        Some(acks)
            if commit_condition::commit_condition(acks, insts.batch(slot), quorum, conf, rows) => {
            Ack::Commits(acks)
        }
        Some(acks) => Ack::Marks(acks),
        None => Ack::Ignored,
    }
}

// The same, from the whole buffer.
#[tactic(auto, unfolding(words::specs::Part::part))]
fn ack_in(node: Node, mem: &[u64], slot: Slot, peer: Replica, ballot: Ballot) -> Ack
    requires { (node_words ≤ length mem.now) × (node.bodega_conf.count ≤ 64) }
    ensures { result ≡ ack_of (short_at (part mem.now slots_at slot_words) (place_of slot.0)) (batch_at (part mem.now slots_at slot_words) (place_of slot.0)) peer.0 ballot.0 node.quorum (roster_of node.bodega_conf (part mem.now rows_at roster_words)) }
{
    ack_at(
        node_insts::insts(mem),
        &mem[layout::ROWS_AT..layout::SLOTS_AT],
        slot,
        peer,
        ballot,
        node.quorum,
        node.bodega_conf,
    )
}

// How many Commit items there are.
fn commits(ack: Ack) -> usize
    ensures { result ≡ commits_by ack }
{
    usize::from(matches!(ack, Ack::Commits(_)))
}

// The item, if there is one.
fn put_commit(items: &mut Items<'_>, ack: Ack, slot: Slot)
    requires { items.old.count + commits_by ack ≤ places items.old.area.now }
    ensures same_reference { items.new.area.ghost_name ≡ items.old.area.ghost_name }
    ensures put { items.new.area.now ≡ writes items.old.area.now (items.old.count * 6) (encode (commit_items ack slot.0)) }
{
    if let Ack::Commits(_) = ack {
        items.push(Item::Commit(slot));
    }
}

fn set_acks(insts: &mut InstsMut<'_>, slot: Slot, acks: u64)
    ensures same_reference { insts.new.words.ghost_name ≡ insts.old.words.ghost_name }
    ensures puts { PutsShort insts.old.words.now (place_of slot.0) (with_acks acks (short_at insts.old.words.now (place_of slot.0))) insts.new.words.now }
{
    let cell = Cell {
        leader_bk: Some(acks),
        ..insts.as_ref().load(slot)
    };
    insts.store(slot, cell);
}

// By the enum, no closure: how many items the ack has is asked of it before it is done.
fn act(insts: &mut InstsMut<'_>, slot: Slot, ack: Ack)
    ensures same_reference { insts.new.words.ghost_name ≡ insts.old.words.ghost_name }
    ensures acts { Acts ack insts.old.words.now (place_of slot.0) insts.new.words.now }
{
    match ack {
        Ack::Ignored => {}
        Ack::Marks(acks) => set_acks(insts, slot, acks),
        Ack::Commits(acks) => {
            set_acks(insts, slot, acks);
            insts.set_status(slot, Status::Committed);
        }
    }
}

// ---- `handle_msg_accept_reply`

// 16.
fn unheld(window: Window, prepared: Ballot, slot: Slot, ballot: Ballot) -> bool
    ensures { result ≡ unheld window.start.0 window.held prepared.0 slot.0 ballot.0 }
{
    window.start <= slot && ballot == prepared && window.end() <= slot
}

// Refusals 3, 8 and 16.
fn reply_refusal(
    population: u8,
    window: Window,
    prepared: Ballot,
    peer: Replica,
    slot: Slot,
    ballot: Ballot,
) -> Result<(), Refusal>
    ensures { refused_by result ≡ reply_refusal population window.start.0 window.held prepared.0 peer.0 slot.0 ballot.0 }
{
    if population <= peer.0 {
        return Err(Refusal::NoSuchReplica);
    }
    if Slot::TOP < slot {
        return Err(Refusal::SlotTooLarge);
    }
    if unheld(window, prepared, slot, ballot) {
        return Err(Refusal::SlotNotHeld);
    }
    Ok(())
}

// Whether anything is done: the slot is not below start, the ballot is the one waited on, and the replica leads.
fn awaits(node: Node, slot: Slot, ballot: Ballot) -> bool
    ensures { result ≡ awaited (leader_of node.bodega_conf.leader) node.id.0 node.start_slot.0 node.bal_prepared.0 slot.0 ballot.0 }
{
    node.start_slot <= slot && ballot == node.bal_prepared && node::is_leader(node)
}

// The slot up to which the slots from the commit bar on are looked at for Accepts to send again: none upon the own
// reply.
fn resends_to(id: Replica, peer: Replica, commit: Slot, slot: Slot) -> Slot
    ensures { result.0 - commit.0 ≡ span id.0 peer.0 commit.0 slot.0 }
{
    if peer == id { commit } else { slot }
}

// A reply that is waited on: its items and its ack, or 20 and nothing where the area has too few places. The words come
// whole: a struct made of a part of the buffer would lose what became of the part.
fn take_reply(
    node: Node,
    words: &mut [u64],
    area: &mut [u64],
    peer: Replica,
    slot: Slot,
    ack: Ack,
) -> Result<usize, Refusal>
    requires { (slot_words ≤ length words.old) × (slot.0 ≤ node.commit_bar.0 + slot_places) }
    ensures { Replies (items_of words.old node.id.0 peer.0 node.commit_bar.0 node.bal_prepared.0 slot.0 ack) ack (place_of slot.0) words.old area.old result words.new area.new }
{
    let commit = node.commit_bar;
    let prepared = node.bal_prepared;
    let to = resends_to(node.id, peer, commit, slot);
    let mut insts = InstsMut { words };
    let count = count_resends(insts.as_ref(), commit, to, peer, prepared) + commits(ack);
    items::has_room(area, count)?;
    let mut items = Items { area, count: 0 };
    put_resends(insts.as_ref(), commit, to, peer, prepared, &mut items);
    put_commit(&mut items, ack, slot);
    act(&mut insts, slot, ack);
    Ok(count)
}

pub fn reply(
    node: Node,
    mem: &mut [u64],
    area: &mut [u64],
    peer: Replica,
    slot: Slot,
    ballot: Ballot,
) -> Result<Taken, Refusal>
    ensures { Answers ready view (Reply peer.0 slot.0 ballot.0) node mem.old area.old (given_of node result) mem.new area.new }
{
    if !node::is_ready(node, mem) {
        return Err(Refusal::NotReady);
    }
    let window = node_insts::window(node, mem);
    reply_refusal(
        node.population,
        window,
        node.bal_prepared,
        peer,
        slot,
        ballot,
    )?;
    if !awaits(node, slot, ballot) {
        return Ok(Taken { node, count: 0 });
    }
    let ack = ack_in(node, mem, slot, peer, ballot);
    let count = take_reply(
        node,
        &mut mem[layout::SLOTS_AT..layout::WRITTEN_AT],
        area,
        peer,
        slot,
        ack,
    )?;
    Ok(Taken { node, count })
}

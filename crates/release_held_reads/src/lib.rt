// localread.rs: whether the write of a slot is bound to commit, and the reads that the slot holds, answered.
#![tactic(auto)]

ghost use Rattle.std.specs.Prelude.{◌≡◌, false, ◌+◌, ◌≤◌, List, leb, length};
ghost use Rattle.words.specs.Choice.{if_none◌then◌else◌};
ghost use Rattle.bitmap.specs.Bitmap.{count};
ghost use Rattle.ids.specs.Leader.{leader_of};
ghost use Rattle.layout.specs.Layout.{held_places};
ghost use Rattle.items.specs.Item.{item_of, places};
ghost use Rattle.bodega.specs.Replica.{Request, ReadReq as Held};
ghost use Rattle.bodega.specs.Localread.{is_bound};
ghost use Rattle.inst_cell.specs.Cell.{cell_of, book_of};
ghost use Rattle.inst_reqs.specs.Batch.{requests_of};
ghost use Rattle.inst_holding.specs.Held.{read_of};
ghost use Rattle.insts.specs.Slots.{place_of, inst_of, inst_in};
ghost use Rattle.release_held_reads.specs.Release.{answer_to, answers_of, holding_of, Answered, Releases};

use ids::{Replica, Slot};
use inst_cell::{Cell, NoticeBook, Status};
use inst_holding::ReadReq;
use inst_reqs::Batch;
use insts::{Insts, InstsMut};
use items::{Item, Items};

// How many replicas are a quorum, and which one a client is told to retry at.
#[derive(Clone, Copy)]
pub struct ReplicaGroup {
    pub quorum: u8,
    pub leader: Option<Replica>,
}

// Whether a quorum has sent notices.
pub fn has_quorum(book: Option<NoticeBook>, quorum: u8) -> bool
    ensures { result ≡ (if_none book_of book then false else λ b. leb quorum (count b.notices)) }
{
    book.is_some_and(|b| u64::from(quorum) <= bitmap::count(b.notices))
}

// Committed or later, or Accepting with a quorum of notices.
pub fn is_bound(cell: Cell, quorum: u8) -> bool
    ensures { (reqs : List Request) (reads : List Held) → result ≡ is_bound quorum (inst_of (cell_of cell) reqs reads) }
{
    match cell.status {
        Status::Null | Status::Preparing => false,
        Status::Accepting => has_quorum(cell.replica_bk, quorum),
        Status::Committed | Status::Executed => true,
    }
}

// What a read gets that the slot of this batch held.
fn answer_to(bound: bool, leader: Option<Replica>, batch: Batch<'_>, read: ReadReq) -> Item
    ensures { item_of result ≡ answer_to bound (leader_of leader) (requests_of batch.entry.words.now) (read_of read) }
{
    let ReadReq {
        client,
        request,
        key,
    } = read;
    if bound && let Some(value) = inst_reqs::last_put(batch, key) {
        Item::Value {
            client,
            request,
            value,
        }
    } else {
        Item::Retry {
            client,
            request,
            leader,
        }
    }
}

// What the reads get that a slot holds, in order, from a place of the area on; gives the next place. Area and place
// come by value: behind a reference they would be loaded and stored again for each read.
fn put_from(
    insts: Insts<'_>,
    slot: Slot,
    group: ReplicaGroup,
    area: &mut [u64],
    place: usize,
) -> usize
    requires { place + length (holding_of (inst_in insts.words.now (place_of slot.0))) ≤ places area.old }
    ensures { Answered place area.old (answers_of group.quorum (leader_of group.leader) (inst_in insts.entry.words.now (place_of slot.0))) result area.new }
{
    let cell = insts.load(slot);
    if cell.replica_bk.is_none() {
        return place;
    }
    let bound = is_bound(cell, group.quorum);
    let batch = insts.batch(slot);
    let mut items = Items { area, count: place };
    for read in insts.reads(slot).iter() {
        items.push(answer_to(bound, group.leader, batch, read));
    }
    items.count
}

fn put_answers(insts: Insts<'_>, slot: Slot, group: ReplicaGroup, items: &mut Items<'_>)
    requires { items.old.count + length (holding_of (inst_in insts.words.now (place_of slot.0))) ≤ places items.old.area.now }
    ensures same_reference { items.new.area.ghost_name ≡ items.old.area.ghost_name }
    ensures put { Answered items.old.count items.old.area.now (answers_of group.quorum (leader_of group.leader) (inst_in insts.entry.words.now (place_of slot.0))) items.new.count items.new.area.now }
{
    items.count = put_from(insts, slot, group, items.area, items.count);
}

// How many reads a slot holds: none where it has no notice book.
pub fn holding(insts: Insts<'_>, slot: Slot) -> usize
    ensures { (result ≡ length (holding_of (inst_in insts.entry.words.now (place_of slot.0)))) × (result ≤ held_places) }
{
    if insts.load(slot).replica_bk.is_some() {
        insts.count_reads(slot)
    } else {
        0
    }
}

// `release_held_read_reqs` for a slot: its items after those that are put, and its queue emptied. The group is the same
// for all slots, so the two are no struct.
pub fn release(insts: &mut InstsMut<'_>, slot: Slot, group: ReplicaGroup, items: &mut Items<'_>)
    requires { items.old.count + length (holding_of (inst_in insts.old.words.now (place_of slot.0))) ≤ places items.old.area.now }
    ensures same_words { insts.new.words.ghost_name ≡ insts.old.words.ghost_name }
    ensures same_area { items.new.area.ghost_name ≡ items.old.area.ghost_name }
    ensures releases { Releases group.quorum (leader_of group.leader) (place_of slot.0) items.old.count insts.old.words.now items.old.area.now items.new.count insts.new.words.now items.new.area.now }
{
    put_answers(insts.as_ref(), slot, group, items);
    insts.clear_reads(slot);
}

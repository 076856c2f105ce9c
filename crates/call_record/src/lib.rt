// The call *record*: a batch into a slot at the current ballot; null slots before it where they are not held, and the
// keys that it writes. Slot, ballot and batch come one by one, as the call has them.
#![tactic(auto)]

ghost use Rattle.std.specs.Prelude.{◌≡◌, true, ◌+◌, ◌≤◌, ◌<◌, length, if◌then◌else◌};
ghost use Rattle.ids.specs.Leader.{leader_of};
ghost use Rattle.layout.specs.Layout.{slot_places, slot_words};
ghost use Rattle.bodega.specs.Replica.{Record};
ghost use Rattle.bodega.specs.Answers.{Answers};
ghost use Rattle.inst_cell.specs.Cell.{book_of};
ghost use Rattle.inst_reqs.specs.Batch.{requests_of};
ghost use Rattle.req_batch.specs.Given.{given};
ghost use Rattle.insts.specs.Slots.{short_at, reads_at, seen_reads, insts_of, place_of, Puts};
ghost use Rattle.node.specs.View.{view, ready, leads_it, given_of};
ghost use Rattle.call_record.specs.Records.{batch_refusal, slot_refusal, late_refusal, ended, kept_book, accepting_short, Pads, Records, Recorded};
ghost use Rattle.ids.specs.Refusal.{refused_by};

use highest_slot::Written;
use ids::{Ballot, Refusal, Slot};
use inst_cell::{Cell, NoticeBook, Status};
use inst_reqs::{Batch, BatchMut};
use insts::{Insts, InstsMut, Window};
use node::{Node, Taken};

// Refusals 5, 8 and 9.
fn batch_refusal(rows: &[u64], text: &[u8], slot: Slot) -> Result<(), Refusal>
    ensures { refused_by result ≡ batch_refusal (given rows.now text.now) slot.0 }
{
    if req_batch::any_long(rows, text) {
        return Err(Refusal::KeyTooLong);
    }
    if Slot::TOP < slot {
        return Err(Refusal::SlotTooLarge);
    }
    if inst_reqs::BATCH < req_batch::count(rows) {
        return Err(Refusal::BatchTooLarge);
    }
    Ok(())
}

// The ballot that *record* must be at.
fn current(node: Node) -> Ballot
    ensures { result.0 ≡ (if leads_it (leader_of node.bodega_conf.leader) node.id.0 then node.bal_prepared.0 else node.bal_max_seen.0) }
{
    if node::is_leader(node) {
        node.bal_prepared
    } else {
        node.bal_max_seen
    }
}

// 14: below the start, or held and no longer open.
fn is_ended(insts: Insts<'_>, window: Window, slot: Slot) -> bool
    ensures { result ≡ ended window.start.0 (insts_of window.start.0 window.held insts.entry.words.now) slot.0 }
{
    slot < window.start || (slot < window.end() && !insts.is_open(slot))
}

// Refusals 13, 14, 15 and 18.
fn slot_refusal(
    insts: Insts<'_>,
    window: Window,
    slot: Slot,
    ballot: Ballot,
    current: Ballot,
    full: bool,
) -> Result<(), Refusal>
    ensures { refused_by result ≡ slot_refusal window.start.0 (insts_of window.start.0 window.held insts.entry.words.now) slot.0 ballot.0 current.0 full }
{
    if ballot != current || current.0 == 0 {
        return Err(Refusal::BallotNotCurrent);
    }
    if is_ended(insts, window, slot) {
        return Err(Refusal::SlotEnded);
    }
    if window.slot(Node::WINDOW) <= slot {
        return Err(Refusal::WindowFull);
    }
    if full {
        return Err(Refusal::TooManyKeys);
    }
    Ok(())
}

// Null slots up to and with the window's k-th, where it is not held; how many slots there are then. The k-th may lie
// past the slots that are held, so its bound is in the clause.
fn padded(insts: &mut InstsMut<'_>, window: Window, k: usize) -> usize
    requires { k < slot_places }
    ensures same_reference { insts.new.words.ghost_name ≡ insts.old.words.ghost_name }
    ensures pads { Pads window.start.0 window.held k insts.old.words.now insts.new.words.now result }
{
    let held = window.held.max(k + 1);
    insts.pad(window, held);
    held
}

// A leader keeps the book as it is; any other replica has a fresh one where there is none.
fn kept_book(leader: bool, book: Option<NoticeBook>) -> Option<NoticeBook>
    ensures { book_of result ≡ kept_book leader (book_of book) }
{
    if leader {
        book
    } else {
        Some(book.unwrap_or(accept_notices::fresh()))
    }
}

// The slot Accepting, with the batch.
fn accept_at(insts: &mut InstsMut<'_>, slot: Slot, ballot: Ballot, leader: bool, batch: Batch<'_>)
    ensures same_reference { insts.new.words.ghost_name ≡ insts.old.words.ghost_name }
    ensures puts { Puts insts.old.words.now (place_of slot.0) (accepting_short leader ballot.0 (short_at insts.old.words.now (place_of slot.0)).replica_bk) (requests_of batch.entry.words.now) (seen_reads (short_at insts.old.words.now (place_of slot.0)).replica_bk (reads_at insts.old.words.now (place_of slot.0))) insts.new.words.now }
{
    insts.clear_unseen(slot);
    insts.put_batch(slot, batch);
    let cell = Cell {
        bal: ballot,
        status: Status::Accepting,
        leader_bk: leader.then_some(0),
        replica_bk: kept_book(leader, insts.as_ref().load(slot).replica_bk),
    };
    insts.store(slot, cell);
}

// The batch into the slot, one of the 32 from the window's start on; how many slots there are then. The words come
// whole: a struct made of a part of the buffer would lose what became of the part.
fn accept(
    words: &mut [u64],
    window: Window,
    slot: Slot,
    ballot: Ballot,
    leader: bool,
    batch: Batch<'_>,
) -> usize
    requires { (window.start.0 ≤ slot.0) × (slot.0 < window.start.0 + slot_places) × (slot_words ≤ length words.old) }
    ensures { Records window.start.0 window.held slot.0 ballot.0 leader (requests_of batch.entry.words.now) words.old words.new result }
{
    let mut insts = InstsMut { words };
    let held = padded(&mut insts, window, window.number(slot));
    accept_at(&mut insts, slot, ballot, leader, batch);
    held
}

// What the slot, the ballot and the keys of a batch in words meet at a node.
fn late_refusal(
    node: Node,
    mem: &[u64],
    slot: Slot,
    ballot: Ballot,
    batch: Batch<'_>,
) -> Result<(), Refusal>
    requires { ready node mem.now ≡ true }
    ensures { refused_by result ≡ late_refusal node mem.now slot.0 ballot.0 (requests_of batch.entry.words.now) }
{
    let written = Written::new(&mem[layout::WRITTEN_AT..layout::NODE_WORDS]);
    let full = highest_slot_refresh::overflows(written, batch);
    slot_refusal(
        node_insts::insts(mem),
        node_insts::window(node, mem),
        slot,
        ballot,
        current(node),
        full,
    )
}

// The node after a batch that nothing refuses is recorded.
fn recorded(node: Node, mem: &mut [u64], slot: Slot, ballot: Ballot, batch: Batch<'_>) -> Node
    requires { (ready node mem.old ≡ true) × (late_refusal node mem.old slot.0 ballot.0 (requests_of batch.words.now) ≡ 0) }
    ensures { Recorded slot.0 ballot.0 (requests_of batch.entry.words.now) node mem.old result mem.new }
{
    let window = node_insts::window(node, mem);
    highest_slot_refresh::refresh(
        &mut mem[layout::WRITTEN_AT..layout::NODE_WORDS],
        batch,
        slot,
    );
    let slots = accept(
        &mut mem[layout::SLOTS_AT..layout::WRITTEN_AT],
        window,
        slot,
        ballot,
        node::is_leader(node),
        batch,
    );
    Node { slots, ..node }
}

pub fn record(
    node: Node,
    mem: &mut [u64],
    area: &[u64],
    slot: Slot,
    ballot: Ballot,
    rows: &[u64],
    text: &[u8],
) -> Result<Taken, Refusal>
    ensures { Answers ready view (Record slot.0 ballot.0 (given rows.now text.now)) node mem.old area.now (given_of node result) mem.new area.now }
{
    if !node::is_ready(node, mem) {
        return Err(Refusal::NotReady);
    }
    batch_refusal(rows, text, slot)?;
    // A fixed array, since there is no heap.
    let mut words = [0; layout::BATCH_WORDS];
    let mut batch = BatchMut::new(&mut words);
    req_batch::load(rows, text, &mut batch);
    let batch = batch.as_ref();
    late_refusal(node, mem, slot, ballot, batch)?;
    let node = recorded(node, mem, slot, ballot, batch);
    Ok(Taken { node, count: 0 })
}

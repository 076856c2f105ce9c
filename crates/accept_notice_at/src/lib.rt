// `handle_msg_accept_notice` at the slot of a notice. The k-th slot may be past those that the window holds, so the
// bound of k is in the clauses. The group is the node's, the notice is the call's, so they come apart.
#![tactic(auto)]

ghost use Rattle.std.specs.Prelude.{◌≡◌, ◌&&◌, ◌||◌, List, ℕ, ◌+◌, ◌≤◌, ◌<◌, eqb, length};
ghost use Rattle.std.specs.Prelude.{Option};
ghost use Rattle.ids.specs.Leader.{leader_of};
ghost use Rattle.layout.specs.Layout.{slot_places};
ghost use Rattle.items.specs.Item.{places};
ghost use Rattle.bodega.specs.Replica.{ReadReq};
ghost use Rattle.inst_cell.specs.Cell.{book_of};
ghost use Rattle.accept_notices.specs.Book.{book_with};
ghost use Rattle.insts.specs.Slots.{place_of, seen_reads, book_of as slot_book, inst_in, insts_of};
ghost use Rattle.accept_notice_at.specs.Notices.{noticed_book, applies, with_notice, noticed_items, noticed_at, after, Sets, Notes, NotesAt};

use ids::{Ballot, Replica, Slot};
use inst_cell::{Cell, NoticeBook};
use insts::{Insts, InstsMut, Window};
use items::Items;
use release_held_reads::ReplicaGroup;

// A peer has accepted a slot at a ballot.
#[derive(Clone, Copy)]
pub struct Notice {
    pub peer: Replica,
    pub ballot: Ballot,
}

// A slot's book takes a notice, a new one where there is none.
fn noticed_book(book: Option<NoticeBook>, notice: Notice) -> NoticeBook
    ensures { (held : List ReadReq) → book_with result (seen_reads (book_of book) held) ≡ noticed_book notice.peer.0 notice.ballot.0 (slot_book (book_of book) held) }
{
    let mut book = book.unwrap_or(accept_notices::fresh());
    accept_notices::take_notice(&mut book, notice.peer, notice.ballot);
    book
}

// Whether a notice is one for a slot: of its ballot, or the slot has none yet and is the last.
fn is_for(bal: Ballot, ballot: Ballot, last: bool) -> bool
    ensures { result ≡ eqb ballot.0 bal.0 || (eqb bal.0 0 && last) }
{
    ballot == bal || bal.0 == 0 && last
}

// A slot with the notice.
fn put_notice(insts: &mut InstsMut<'_>, slot: Slot, notice: Notice)
    ensures same_reference { insts.new.words.ghost_name ≡ insts.old.words.ghost_name }
    ensures sets { Sets insts.old.words.now (place_of slot.0) (with_notice notice.peer.0 notice.ballot.0 (inst_in insts.old.words.now (place_of slot.0))) insts.new.words.now }
{
    let cell = insts.as_ref().load(slot);
    insts.clear_unseen(slot);
    let replica_bk = Some(noticed_book(cell.replica_bk, notice));
    insts.store(slot, Cell { replica_bk, ..cell });
}

// How many items a notice has at a slot.
#[tactic(auto, using(crate::proofs::Laws::due_none, crate::proofs::Laws::due_open, crate::proofs::Laws::due_reads))]
fn due_in(insts: Insts<'_>, slot: Slot, last: bool, quorum: u8, notice: Notice) -> usize
    ensures { (leader : Option ℕ) → result ≡ length (noticed_items quorum leader notice.peer.0 notice.ballot.0 last (inst_in insts.entry.words.now (place_of slot.0))) }
{
    let cell = insts.load(slot);
    if !is_for(cell.bal, notice.ballot, last) {
        return 0;
    }
    let book = noticed_book(cell.replica_bk, notice);
    if release_held_reads::has_quorum(Some(book), quorum) {
        release_held_reads::holding(insts, slot)
    } else {
        0
    }
}

// The notice taken at a slot, and its reads released at a quorum of notices.
fn notice_in(
    insts: &mut InstsMut<'_>,
    slot: Slot,
    last: bool,
    group: ReplicaGroup,
    notice: Notice,
    items: &mut Items<'_>,
)
    requires { items.old.count + length (noticed_items group.quorum (leader_of group.leader) notice.peer.0 notice.ballot.0 last (inst_in insts.old.words.now (place_of slot.0))) ≤ places items.old.area.now }
    ensures same_words { insts.new.words.ghost_name ≡ insts.old.words.ghost_name }
    ensures same_area { items.new.area.ghost_name ≡ items.old.area.ghost_name }
    ensures notes { Notes group.quorum (leader_of group.leader) notice.peer.0 notice.ballot.0 last (place_of slot.0) items.old.count insts.old.words.now items.old.area.now items.new.count insts.new.words.now items.new.area.now }
{
    if !is_for(insts.as_ref().load(slot).bal, notice.ballot, last) {
        return;
    }
    put_notice(insts, slot, notice);
    if release_held_reads::has_quorum(insts.as_ref().load(slot).replica_bk, group.quorum) {
        release_held_reads::release(insts, slot, group, items);
    }
}

// How many slots are held once there are null ones up to the k-th.
pub fn held_after(held: usize, k: usize) -> usize
    requires { k < slot_places }
    ensures { result ≡ after held k }
{
    held.max(k + 1)
}

// How many items a notice has at the k-th slot of the window. The window and k are two arguments, since k may lie past
// the slots that are held.
#[tactic(auto, using(crate::proofs::Laws::due_null))]
pub fn due(insts: Insts<'_>, window: Window, k: usize, quorum: u8, notice: Notice) -> usize
    requires { k < slot_places }
    ensures { (leader : Option ℕ) → result ≡ length (noticed_at quorum leader notice.peer.0 notice.ballot.0 k (insts_of window.start.0 window.held insts.entry.words.now)).items }
{
    if window.held <= k {
        return 0;
    }
    due_in(insts, window.slot(k), k + 1 == window.held, quorum, notice)
}

// The notice taken at the k-th slot of the window, null ones filled in up to it.
pub fn notice_at(
    insts: &mut InstsMut<'_>,
    window: Window,
    k: usize,
    group: ReplicaGroup,
    notice: Notice,
    items: &mut Items<'_>,
)
    requires below { k < slot_places }
    requires room { items.old.count + length (noticed_at group.quorum (leader_of group.leader) notice.peer.0 notice.ballot.0 k (insts_of window.start.0 window.held insts.old.words.now)).items ≤ places items.old.area.now }
    ensures same_words { insts.new.words.ghost_name ≡ insts.old.words.ghost_name }
    ensures same_area { items.new.area.ghost_name ≡ items.old.area.ghost_name }
    ensures notes { NotesAt group.quorum (leader_of group.leader) notice.peer.0 notice.ballot.0 window.start.0 window.held k items.old.count insts.old.words.now items.old.area.now items.new.count insts.new.words.now items.new.area.now }
{
    let held = held_after(window.held, k);
    insts.pad(window, held);
    let last = k + 1 == held;
    notice_in(insts, window.slot(k), last, group, notice, items);
}

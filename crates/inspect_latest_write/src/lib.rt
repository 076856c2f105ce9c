// request.rs and localread.rs: which condition settles a read at a replica, and the answer that follows from it. What a
// read carries comes one by one, as a host in C hands it over; a table goes beside the node, as it is lent.
#![tactic(auto)]

ghost use Rattle.std.specs.Prelude.{◌≡◌, true, List, [], ◌∷◌, ℕ, ◌%◌, ◌≤◌, length};
ghost use Rattle.layout.specs.Layout.{slots_at, slot_words, written_at, written_words, slot_places};
ghost use Rattle.words.specs.Choice.{if_none◌then◌else◌};
ghost use Rattle.words.specs.Part.{part};
ghost use Rattle.bitmap.specs.Bitmap.{get};
ghost use Rattle.key_words.specs.Key.{bytes_of};
ghost use Rattle.items.specs.Item.{item_of};
ghost use Rattle.inst_cell.specs.Cell.{cell_of};
ghost use Rattle.insts.specs.Slots.{inst_of};
ghost use Rattle.bodega.specs.Replica.{Replica as Machine, Request, ReadReq};
ghost use Rattle.bodega.specs.Localread as local;
ghost use Rattle.bodega.specs.Localread.{is_stable_leader, inspect_highest_slot, inspect_latest_write, waits, waits_at, improper, answer_of};
ghost use Rattle.bodega.specs.Request.{settled, read_answer, answered};
ghost use Rattle.bodega.specs.Grounds.{overfills};
ghost use Rattle.node.specs.View.{view, ready};
ghost use Rattle.inspect_latest_write.specs.Located.{held_at, settled_of, answer_in, Stands, Located, Settles, Gets};

use highest_slot::Written;
use ids::{Replica, Slot};
use inst_cell::{Cell, Status};
use insts::Insts;
use items::Item;
use key_words::Key;
use node::{Node, is_leader};
use roster_map::RangeMap;

// A slot that settles a read: its place, and whether a read waits there, a flag beside it, so that `answer_of` needs no
// words to look the slot up again.
#[derive(Clone, Copy)]
pub struct SlotAt {
    pub slot: Slot,
    pub place: usize,
    pub waits: bool,
}

// The condition that settles a read, in the order in which the Rust comes to them.
#[derive(Clone, Copy)]
pub enum Settled {
    StableLeader,
    FewLeases,
    UnreadKey,
    StoredRange,
    DefaultRoster,
    Bar,
    NoSlot,
    SlotStatus(Slot),
    Notices(SlotAt),
    FoundPut(u64),
    MissingPut(SlotAt),
}

// What a read gets: value, absent, store, pass, hold, retry.
#[derive(Clone, Copy)]
pub enum ReadAnswer {
    Found(u64),
    Missing,
    FromStore,
    Consensus,
    HeldBy(Slot),
    Again,
}

// ---- leaders and responders

#[tactic(auto, unfolding(bodega::specs::Localread::is_stable_leader, node::specs::View::view))]
fn is_stable_leader(node: Node, leases: u64) -> bool
    ensures { (m : List ℕ) → result ≡ is_stable_leader (view node m) leases }
{
    is_leader(node)
        && node.bal_prepared.0 != 0
        && node.bal_max_seen == node.bal_prepared
        && u64::from(node.quorum) <= leases
        && node.peer_accept_max <= node.commit_bar
}

// Whether the replica is in the mask stored for a key, or in the default where none is.
fn is_responder(default: u64, id: Replica, stored: Option<u64>) -> bool
    ensures { result ≡ get (if_none stored then default else λ m. m) id.0 }
{
    bitmap::get(stored.unwrap_or(default), id)
}

fn not_responder(stored: Option<u64>) -> Settled
    ensures { (x : Machine) (s : List ℕ) → Settles x s (if_none stored then local.DefaultRoster else λ m. local.StoredRange) result }
{
    match stored {
        Some(_) => Settled::StoredRange,
        None => Settled::DefaultRoster,
    }
}

// ---- slots

// As `Window::holds`, which a node's window has only where the node is asked to be ready.
fn is_held(node: Node, slot: Slot) -> bool
    ensures { result ≡ held_at node.start_slot.0 node.slots slot.0 }
{
    node.start_slot <= slot && slot.0 - node.start_slot.0 < node.slots as u64
}

// The place of a slot.
fn place_of(slot: Slot) -> usize
    ensures { result ≡ slot.0 % slot_places }
{
    (slot.0 % layout::PLACES) as usize
}

// Accepting, with a notice book.
fn waits(cell: Cell) -> bool
    ensures { (reqs : List Request) (reads : List ReadReq) → result ≡ waits (inst_of (cell_of cell) reqs reads) }
{
    cell.status == Status::Accepting && cell.replica_bk.is_some()
}

// A slot beside what its cell says of it.
fn slot_at(slot: Slot, cell: Cell) -> SlotAt
    ensures slot { result.slot ≡ slot }
    ensures place { result.place ≡ slot.0 % slot_places }
    ensures waits { (reqs : List Request) (reads : List ReadReq) → result.waits ≡ waits (inst_of (cell_of cell) reqs reads) }
{
    SlotAt {
        slot,
        place: place_of(slot),
        waits: waits(cell),
    }
}

// ---- what settles a read: the node and its slots' words are two arguments here, as a call has the node and its
// buffer, since what is short goes by value and the tables are lent

fn inspect_highest_slot(node: Node, insts: Insts<'_>, key: Key, slot: Slot) -> Settled
    ensures { (m : List ℕ) → part m slots_at slot_words ≡ insts.entry.words.now → Settles (view node m) insts.entry.words.now (inspect_highest_slot (view node m) (bytes_of key) slot.0) result }
{
    if !is_held(node, slot) {
        return Settled::SlotStatus(slot);
    }
    let cell = insts.load(slot);
    if inst_cell::is_below_accepting(cell.status) {
        return Settled::SlotStatus(slot);
    }
    if !release_held_reads::is_bound(cell, node.quorum) {
        return Settled::Notices(slot_at(slot, cell));
    }
    match insts.last_put(slot, key) {
        Some(value) => Settled::FoundPut(value),
        None => Settled::MissingPut(slot_at(slot, cell)),
    }
}

fn inspect_latest_write(node: Node, insts: Insts<'_>, written: Written<'_>, key: Key) -> Settled
    ensures { (m : List ℕ) → part m slots_at slot_words ≡ insts.entry.words.now → part m written_at written_words ≡ written.entry.words.now → Settles (view node m) insts.entry.words.now (inspect_latest_write (view node m) (bytes_of key)) result }
{
    match highest_slot::highest(written, key) {
        Some(slot) if node.start_slot <= slot => inspect_highest_slot(node, insts, key, slot),
        _ => Settled::NoSlot,
    }
}

// What settles a read of a key: its bytes, and the same packed.
pub fn settled_by(node: Node, mem: &[u64], leases: u64, key: &[u8], packed: Key) -> Settled
    requires { (ready node mem.now ≡ true) × (bytes_of packed ≡ key.now) }
    ensures { Settles (view node mem.now) (part mem.now slots_at slot_words) (settled (view node mem.now) leases key.now) result }
{
    if is_stable_leader(node, leases) {
        return Settled::StableLeader;
    }
    if leases < u64::from(node.quorum) {
        return Settled::FewLeases;
    }
    let Some(n) = keys::key_to_inty(key) else {
        return Settled::UnreadKey;
    };
    let conf = node.bodega_conf;
    let map = RangeMap {
        rows: &mem[layout::ROWS_AT..layout::SLOTS_AT],
        count: conf.count,
    };
    let stored = map.at(n);
    if !is_responder(conf.default, node.id, stored) {
        return not_responder(stored);
    }
    if node.commit_bar < node.peer_accept_max {
        return Settled::Bar;
    }
    inspect_latest_write(
        node,
        node_insts::insts(mem),
        Written::new(&mem[layout::WRITTEN_AT..layout::NODE_WORDS]),
        packed,
    )
}

// ---- the answer

#[tactic(auto, unfolding(node::specs::View::view))]
fn improper(node: Node) -> ReadAnswer
    ensures { (m s : List ℕ) → Gets (view node m) s (improper (view node m)) result }
{
    if is_leader(node) && node.bal_prepared.0 != 0 {
        ReadAnswer::Consensus
    } else {
        ReadAnswer::Again
    }
}

// A key that no slot at start or above wrote.
#[tactic(auto, unfolding(node::specs::View::view))]
fn unwritten(node: Node) -> ReadAnswer
    ensures { (m s : List ℕ) → Gets (view node m) s (answer_of (view node m) local.NoSlot) result }
{
    if node.start_slot.0 == 0 {
        ReadAnswer::Missing
    } else {
        ReadAnswer::FromStore
    }
}

// The slot that settles a read holds it where one waits there.
fn waits_at(x: SlotAt) -> ReadAnswer
    ensures { (y : Machine) (s : List ℕ) → Stands y s x → Gets y s (waits_at y x.slot.0) result }
{
    if x.waits {
        ReadAnswer::HeldBy(x.slot)
    } else {
        ReadAnswer::Again
    }
}

// The same of a slot by its number, held or not: it is looked up.
fn waits_in(node: Node, insts: Insts<'_>, slot: Slot) -> ReadAnswer
    ensures { (m : List ℕ) → part m slots_at slot_words ≡ insts.entry.words.now → answer_in result ≡ waits_at (view node m) slot.0 }
{
    if !is_held(node, slot) {
        return ReadAnswer::Again;
    }
    waits_at(slot_at(slot, insts.load(slot)))
}

// What the read gets that this settled, by what it tells of its slot. The match is on what was found, not on which step
// to run.
pub fn answer_of(node: Node, settled: Settled) -> ReadAnswer
    ensures { (m : List ℕ) → Located (view node m) (part m slots_at slot_words) settled → Gets (view node m) (part m slots_at slot_words) (answer_of (view node m) (settled_of settled)) result }
{
    match settled {
        Settled::StableLeader => ReadAnswer::FromStore,
        Settled::FewLeases
        | Settled::UnreadKey
        | Settled::StoredRange
        | Settled::DefaultRoster
        | Settled::Bar => improper(node),
        Settled::NoSlot => unwritten(node),
        Settled::SlotStatus(_) => ReadAnswer::Again,
        Settled::Notices(x) | Settled::MissingPut(x) => waits_at(x),
        Settled::FoundPut(value) => ReadAnswer::Found(value),
    }
}

// The same whatever is told of the slot, which is looked up in the slots' words.
pub fn answer_at(node: Node, insts: Insts<'_>, settled: Settled) -> ReadAnswer
    ensures { (m : List ℕ) → part m slots_at slot_words ≡ insts.entry.words.now → answer_in result ≡ answer_of (view node m) (settled_of settled) }
{
    match settled {
        Settled::Notices(x) | Settled::MissingPut(x) => waits_in(node, insts, x.slot),
        _ => answer_of(node, settled),
    }
}

// What a read of a key gets: its bytes, and the same packed.
pub fn read_answer(node: Node, mem: &[u64], leases: u64, key: &[u8], packed: Key) -> ReadAnswer
    requires { (ready node mem.now ≡ true) × (bytes_of packed ≡ key.now) }
    ensures { Gets (view node mem.now) (part mem.now slots_at slot_words) (read_answer (view node mem.now) leases key.now) result }
{
    answer_of(node, settled_by(node, mem, leases, key, packed))
}

// A read would be held by a slot that holds 16.
pub fn overfills(node: Node, mem: &[u64], answer: ReadAnswer) -> bool
    requires { ready node mem.now ≡ true }
    ensures { result ≡ overfills (view node mem.now) (answer_in answer) }
{
    match answer {
        ReadAnswer::HeldBy(slot) if is_held(node, slot) => {
            Node::HOLD <= release_held_reads::holding(node_insts::insts(mem), slot)
        }
        _ => false,
    }
}

// The item that answers a read.
#[tactic(auto, unfolding(node::specs::View::view, roster_conf::specs::Edits::view))]
pub fn item_of(node: Node, client: u64, request: u64, answer: ReadAnswer) -> Item
    ensures { (m key : List ℕ) → (answered (view node m) (record { client = client; request = request; key = key }) (answer_in answer)).items ≡ item_of result ∷ [] }
{
    match answer {
        ReadAnswer::Found(value) => Item::Value {
            client,
            request,
            value,
        },
        ReadAnswer::Missing => Item::Absent { client, request },
        ReadAnswer::FromStore => Item::Store { client, request },
        ReadAnswer::Consensus => Item::Pass { client, request },
        ReadAnswer::HeldBy(slot) => Item::Hold {
            client,
            request,
            slot,
        },
        ReadAnswer::Again => Item::Retry {
            client,
            request,
            leader: node.bodega_conf.leader,
        },
    }
}

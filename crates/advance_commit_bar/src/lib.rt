// `advance_commit_bar`: from the commit bar on, slots below a peer's commit bar become Committed. The slots stand in
// lent words of crate insts. The commit bar is the node's, ballot and bar are the peer's: so they come apart.
#![tactic(auto)]

ghost use Rattle.std.specs.Prelude.{◌≡◌, ◌+◌, ◌-◌, ◌≤◌, min, length};
ghost use Rattle.items.specs.Item.{item_of, places};
ghost use Rattle.layout.specs.Layout.{slot_words};
ghost use Rattle.inst_cell.specs.Cell.{Short, cell_of};
ghost use Rattle.insts.specs.Slots.{inst_in, place_of};
ghost use Rattle.advance_commit_bar.specs.Walk.{stops_at, one_if_open, ChangesOpen, Marks, walked, Advances};

use ids::{Ballot, Slot};
use inst_cell::{Cell, Status};
use insts::{Insts, InstsMut, Window};
use items::{Item, Items};

// Whether the walk ends before a slot.
#[tactic(auto, unfolding(insts::specs::Slots::inst_in))]
fn stops(insts: Insts<'_>, slot: Slot, ballot: Ballot) -> bool
    ensures { result ≡ stops_at ballot.0 (inst_in insts.entry.words.now (place_of slot.0)) }
{
    let cell = insts.load(slot);
    cell.bal < ballot || inst_cell::is_below_accepting(cell.status)
}

// An open slot changed, with its item; another one stays, without it. A call counts its items first and refuses an area
// that is too small, so the room is asked for here and in the functions of a slot that call this.
pub fn change_open<F: Fn(Cell) -> Cell>(
    insts: &mut InstsMut<'_>,
    slot: Slot,
    items: &mut Items<'_>,
    item: Item,
    change: F,
)
    ghost changed: { Short → Short }
    requires changes { F.IsAlwaysCallable change × ((x y : Cell) → F.post change x y → cell_of y ≡ changed (cell_of x)) }
    requires room { items.old.count + one_if_open (inst_in insts.old.words.now (place_of slot.0)) ≤ places items.old.area.now }
    ensures same_words { insts.new.words.ghost_name ≡ insts.old.words.ghost_name }
    ensures same_area { items.new.area.ghost_name ≡ items.old.area.ghost_name }
    ensures changes { ChangesOpen changed (item_of item) (place_of slot.0) items.old.count insts.old.words.now items.old.area.now items.new.count insts.new.words.now items.new.area.now }
{
    if insts.as_ref().is_open(slot) {
        let cell = change(insts.as_ref().load(slot));
        insts.store(slot, cell);
        items.push(item);
    }
}

// A slot that the walk passes: marked Committed, with its item, unless it was already.
fn mark(insts: &mut InstsMut<'_>, slot: Slot, items: &mut Items<'_>)
    requires { items.old.count + one_if_open (inst_in insts.old.words.now (place_of slot.0)) ≤ places items.old.area.now }
    ensures same_words { insts.new.words.ghost_name ≡ insts.old.words.ghost_name }
    ensures same_area { items.new.area.ghost_name ≡ items.old.area.ghost_name }
    ensures marks { Marks (place_of slot.0) items.old.count slot.0 insts.old.words.now items.old.area.now items.new.count insts.new.words.now items.new.area.now }
{
    // The status alone: `change_open` loads and stores the cell whole, which doubles the walk, and writes words of it
    // anew that no call made.
    if !insts.as_ref().is_open(slot) {
        return;
    }
    insts.set_status(slot, Status::Committed);
    items.push(Item::Commit(slot));
}

// How many slots of the window are below the bar.
fn reach(window: Window, bar: Slot) -> usize
    ensures { result ≡ min window.held (bar.0 - window.start.0) }
{
    window.held.min(window.number(bar))
}

// How many items the walk has, which a call asks before it walks: one that lacks places leaves all as it was.
pub fn count_commits(
    insts: Insts<'_>,
    window: Window,
    commit: Slot,
    ballot: Ballot,
    bar: Slot,
) -> usize
    requires { (window.start.0 ≤ commit.0) × (commit.0 ≤ window.start.0 + window.held) }
    ensures { result ≡ length (walked window.start.0 window.held commit.0 ballot.0 bar.0 insts.entry.words.now).items }
{
    let from = window.number(commit);
    (from..reach(window, bar))
        .map(|k| window.slot(k))
        .take_while(|slot| !stops(insts, *slot, ballot))
        .filter(|slot| insts.is_open(*slot))
        .count()
}

// The walk, with its items from a place of the area on; gives the next place. Area and place come by value: behind a
// reference they would be loaded and stored again for each slot. The words come whole: a struct made of a part of a
// buffer would lose what became of the part.
fn walk(
    words: &mut [u64],
    window: Window,
    commit: Slot,
    ballot: Ballot,
    bar: Slot,
    area: &mut [u64],
    place: usize,
) -> usize
    requires { (slot_words ≤ length words.old) × (window.start.0 ≤ commit.0) × (commit.0 ≤ window.start.0 + window.held) × (place + length (walked window.start.0 window.held commit.0 ballot.0 bar.0 words.old).items ≤ places area.old) }
    ensures { Advances place window.start.0 window.held commit.0 ballot.0 bar.0 words.old area.old result words.new area.new }
{
    let from = window.number(commit);
    let mut insts = InstsMut { words };
    let mut items = Items { area, count: place };
    for k in from..reach(window, bar) {
        let slot = window.slot(k);
        if stops(insts.as_ref(), slot, ballot) {
            return items.count;
        }
        mark(&mut insts, slot, &mut items);
    }
    items.count
}

// The walk, with its items after those that are put.
pub fn advance(
    words: &mut [u64],
    window: Window,
    commit: Slot,
    ballot: Ballot,
    bar: Slot,
    items: &mut Items<'_>,
)
    requires { (slot_words ≤ length words.old) × (window.start.0 ≤ commit.0) × (commit.0 ≤ window.start.0 + window.held) × (items.old.count + length (walked window.start.0 window.held commit.0 ballot.0 bar.0 words.old).items ≤ places items.old.area.now) }
    ensures same_area { items.new.area.ghost_name ≡ items.old.area.ghost_name }
    ensures advances { Advances items.old.count window.start.0 window.held commit.0 ballot.0 bar.0 words.old items.old.area.now items.new.count words.new items.new.area.now }
{
    items.count = walk(words, window, commit, ballot, bar, items.area, items.count);
}

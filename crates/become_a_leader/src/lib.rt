// `become_a_leader`: the open slots prepared anew, the reads held from the first to the last of them answered. The
// slots stand in lent words of crate insts.
#![tactic(auto)]

ghost use Rattle.std.specs.Prelude.{◌≡◌, true, ℕ, ◌+◌, ◌-◌, ◌*◌, ◌≤◌, ◌<◌, length, drop};
ghost use Rattle.std.specs.Prelude.{Option, None};
ghost use Rattle.ids.specs.Leader.{leader_of};
ghost use Rattle.layout.specs.Layout.{slot_places, held_places, slot_words};
ghost use Rattle.items.specs.Item.{places};
ghost use Rattle.bodega.specs.Conflease.{first_open, last_open, any_open, prelogs};
ghost use Rattle.insts.specs.Slots.{inst_in, insts_of, place_of};
ghost use Rattle.advance_commit_bar.specs.Walk.{one_if_open};
ghost use Rattle.become_a_leader.specs.StepUp.{slots_after, prepared_anew, released_from, step_up, StepsUp, Opens, Prelogs, Passes};

use ids::{Ballot, Slot};
use inst_cell::{Cell, Status};
use insts::{Insts, InstsMut, Window};
use items::{Item, Items};
use release_held_reads::ReplicaGroup;
use std::ops::Range;

// The number of the first open slot, that of all where none is.
fn first_open(insts: Insts<'_>, window: Window) -> usize
    ensures { result ≡ first_open (insts_of window.start.0 window.held insts.entry.words.now) }
{
    insts
        .position(window, |slot| insts.is_open(slot))
        .unwrap_or(window.held)
}

// The number of the last open slot, that of all where none is.
fn last_open(insts: Insts<'_>, window: Window) -> usize
    ensures { result ≡ last_open (insts_of window.start.0 window.held insts.entry.words.now) }
{
    (0..window.held)
        .rev()
        .find(|&k| insts.is_open(window.slot(k)))
        .unwrap_or(window.held)
}

// The numbers from that of the first open slot to that of the last.
fn open_range(insts: Insts<'_>, window: Window) -> Range<usize>
    requires { any_open (insts_of window.start.0 window.held insts.words.now) ≡ true }
    ensures starts { result.start ≡ first_open (insts_of window.start.0 window.held insts.entry.words.now) }
    ensures ends { result.end ≡ last_open (insts_of window.start.0 window.held insts.entry.words.now) + 1 }
{
    first_open(insts, window)..last_open(insts, window) + 1
}

// How many slots are open.
fn count_open(insts: Insts<'_>, window: Window) -> usize
    ensures { (result ≡ length (prelogs window.start.0 (insts_of window.start.0 window.held insts.entry.words.now))) × (result ≤ slot_places) }
{
    (0..window.held)
        .map(|k| window.slot(k))
        .filter(|slot| insts.is_open(*slot))
        .count()
}

// How many reads the slots of these numbers hold.
fn count_held(insts: Insts<'_>, window: Window, numbers: Range<usize>) -> usize
    requires { (numbers.start ≤ numbers.end) × (numbers.end ≤ window.held) }
    ensures { (result ≡ length (released_from 0 None (numbers.end - numbers.start) (drop numbers.start (insts_of window.start.0 window.held insts.entry.words.now))).items) × (result ≤ slot_places * held_places) }
{
    numbers
        .map(|k| release_held_reads::holding(insts, window.slot(k)))
        .sum()
}

// How many items it has.
pub fn count_items(insts: Insts<'_>, window: Window) -> usize
    ensures { (quorum : ℕ) (leader : Option ℕ) (ballot : ℕ) → result ≡ length (step_up window.start.0 quorum leader ballot (insts_of window.start.0 window.held insts.entry.words.now)).items }
{
    if !insts.any_open(window) {
        return 3;
    }
    let open = open_range(insts, window);
    2 + count_open(insts, window) + count_held(insts, window, open)
}

// A null slot after those that are held, where none is open.
fn open_one(insts: &mut InstsMut<'_>, window: Window) -> Window
    requires { slots_after window.held (insts_of window.start.0 window.held insts.old.words.now) ≤ slot_places }
    ensures same_words { insts.new.words.ghost_name ≡ insts.old.words.ghost_name }
    ensures starts { result.start ≡ window.start }
    ensures opens { Opens window.start.0 window.held insts.old.words.now result.held insts.new.words.now }
{
    if insts.as_ref().any_open(window) {
        return window;
    }
    let held = window.held + 1;
    insts.pad(window, held);
    Window {
        start: window.start,
        held,
    }
}

// A slot Preparing at the ballot, with empty acks, and with its item, if it is open.
fn prelog(insts: &mut InstsMut<'_>, slot: Slot, ballot: Ballot, items: &mut Items<'_>)
    requires { items.old.count + one_if_open (inst_in insts.old.words.now (place_of slot.0)) ≤ places items.old.area.now }
    ensures same_words { insts.new.words.ghost_name ≡ insts.old.words.ghost_name }
    ensures same_area { items.new.area.ghost_name ≡ items.old.area.ghost_name }
    ensures prelogs { Prelogs (place_of slot.0) items.old.count slot.0 ballot.0 insts.old.words.now items.old.area.now items.new.count insts.new.words.now items.new.area.now }
{
    advance_commit_bar::change_open(
        insts,
        slot,
        items,
        Item::Prelog(slot),
        |cell| Cell {
            bal: ballot,
            status: Status::Preparing,
            leader_bk: Some(0),
            ..cell
        },
    );
}

// All open slots prepared anew, with their items.
fn prelog_all(insts: &mut InstsMut<'_>, window: Window, ballot: Ballot, items: &mut Items<'_>)
    requires { items.old.count + length (prelogs window.start.0 (insts_of window.start.0 window.held insts.old.words.now)) ≤ places items.old.area.now }
    ensures same_words { insts.new.words.ghost_name ≡ insts.old.words.ghost_name }
    ensures same_area { items.new.area.ghost_name ≡ items.old.area.ghost_name }
    ensures passes { Passes (prepared_anew window.start.0 ballot.0 (insts_of window.start.0 window.held insts.old.words.now)) items.old.count window.start.0 window.held 0 insts.old.words.now items.old.area.now items.new.count insts.new.words.now items.new.area.now }
{
    for k in 0..window.held {
        prelog(insts, window.slot(k), ballot, items);
    }
}

// The reads answered that the slots of these numbers hold.
fn release_all(
    insts: &mut InstsMut<'_>,
    window: Window,
    numbers: Range<usize>,
    group: ReplicaGroup,
    items: &mut Items<'_>,
)
    requires { (numbers.start ≤ numbers.end) × (numbers.end ≤ window.held) × (items.old.count + length (released_from group.quorum (leader_of group.leader) (numbers.end - numbers.start) (drop numbers.start (insts_of window.start.0 window.held insts.old.words.now))).items ≤ places items.old.area.now) }
    ensures same_words { insts.new.words.ghost_name ≡ insts.old.words.ghost_name }
    ensures same_area { items.new.area.ghost_name ≡ items.old.area.ghost_name }
    ensures passes { Passes (released_from group.quorum (leader_of group.leader) (numbers.end - numbers.start) (drop numbers.start (insts_of window.start.0 window.held insts.old.words.now))) items.old.count window.start.0 window.held numbers.start insts.old.words.now items.old.area.now items.new.count insts.new.words.now items.new.area.now }
{
    for k in numbers.start..numbers.end {
        release_held_reads::release(insts, window.slot(k), group, items);
    }
}

// The slots and the items of a step-up. Gives how many slots are held after it: one more where none was open. The words
// come whole: a struct made of a part of a buffer would lose what became of the part.
pub fn become_a_leader(
    words: &mut [u64],
    window: Window,
    group: ReplicaGroup,
    ballot: Ballot,
    items: &mut Items<'_>,
) -> usize
    requires { (slot_words ≤ length words.old) × (slots_after window.held (insts_of window.start.0 window.held words.old) ≤ slot_places) × (items.old.count + length (step_up window.start.0 group.quorum (leader_of group.leader) ballot.0 (insts_of window.start.0 window.held words.old)).items ≤ places items.old.area.now) }
    ensures same_area { items.new.area.ghost_name ≡ items.old.area.ghost_name }
    ensures held { result ≡ slots_after window.held (insts_of window.start.0 window.held words.old) }
    ensures steps { StepsUp items.old.count window.start.0 window.held group.quorum (leader_of group.leader) ballot.0 words.old items.old.area.now items.new.count words.new items.new.area.now }
{
    let mut insts = InstsMut { words };
    let window = open_one(&mut insts, window);
    let open = open_range(insts.as_ref(), window);
    let prepare = Item::Prepare {
        slot: window.slot(open.start),
        ballot,
    };
    items.push(Item::Lead(true));
    prelog_all(&mut insts, window, ballot, items);
    release_all(&mut insts, window, open, group, items);
    items.push(prepare);
    window.held
}

// The slots that a replica holds, in lent words: cells, batches and held reads. Slot s has place s % PLACES.
#![tactic(auto)]

ghost use Rattle.std.specs.Prelude.{◌≡◌, Bool, ◌&&◌, [], ◌∷◌, ◌++◌, ◌+◌, ◌-◌, ◌%◌, ◌≤◌, ◌<◌, leb, ltb, min, length, replicate};
ghost use Rattle.std.specs.List.{position_from};
ghost use Rattle.bodega.specs.Replica.{null_instance, Instance, is_open};
ghost use Rattle.bodega.specs.Localread.{last_put};
ghost use Rattle.bodega.specs.Grounds.{any, holds};
ghost use Rattle.ids.specs.Limits.{top};
ghost use Rattle.layout.specs.Layout.{held_places, slot_places, slot_words};
ghost use Rattle.key_words.specs.Key.{bytes_of};
ghost use Rattle.inst_cell.specs.Cell.{cell_of, status_of, with_status, has_book};
ghost use Rattle.inst_reqs.specs.Batch.{requests_of};
ghost use Rattle.inst_holding.specs.Held.{reads_of, read_of};
ghost use Rattle.insts.specs.Slots.{short_at, batch_at, reads_at, seen_reads, insts_of, null_short, Puts, PutsShort, PutsBatch, PutsReads, inst_in, batch_start, reads_start, place_of};

use ids::Slot;
use inst_cell::{Cell, Status};
use inst_holding::{Held, ReadReq};
use inst_reqs::Batch;
use key_words::Key;

// Which slots are held: `held` of them from `start` on. A window, or a slot, goes beside the words: in one struct with
// them, each function that changes a word would have to say that the window stays.
#[derive(Clone, Copy)]
pub struct Window {
    pub start: Slot,
    pub held: usize,
    ghost low: { start.0 ≤ top },
    ghost few: { held ≤ slot_places },
}

impl Window {
    // The k-th slot.
    pub fn slot(self, k: usize) -> Slot
        requires { k ≤ slot_places }
        ensures { result.0 ≡ self.start.0 + k }
    {
        Slot(self.start.0 + k as u64)
    }

    // The slot after the last.
    pub fn end(self) -> Slot
        ensures { result.0 ≡ self.start.0 + self.held }
    {
        self.slot(self.held)
    }

    // The number of a slot from start on, whether it is held or not; 0 for one below start.
    pub fn number(self, slot: Slot) -> usize
        ensures { result ≡ slot.0 - self.start.0 }
    {
        slot.0.saturating_sub(self.start.0) as usize
    }

    pub fn holds(self, slot: Slot) -> bool
        ensures { result ≡ leb self.start.0 slot.0 && ltb slot.0 (self.start.0 + self.held) }
    {
        self.start <= slot && slot < self.end()
    }

    // Its first n slots; all of them, where there are no more.
    pub fn first(self, n: usize) -> Window
        ensures { (result.start ≡ self.start) × (result.held ≡ min n self.held) }
    {
        Window {
            held: n.min(self.held),
            start: self.start,
        }
    }
}

// The slots' words, lent to be read.
#[derive(Clone, Copy)]
pub struct Insts<'a> {
    pub words: &'a [u64],
    ghost whole: { slot_words ≤ length words.now },
}

// The slots' words, lent to be changed.
#[derive(Drop)]
pub struct InstsMut<'a> {
    pub words: &'a mut [u64],
    ghost whole: { slot_words ≤ length words.now },
}

fn place(slot: Slot) -> usize
    ensures { (result ≡ place_of slot.0) × (result < slot_places) }
{
    (slot.0 % layout::PLACES) as usize
}

// Where the batch and the held reads of place c stand. A number with its bound: `place` makes it for one use at once.
pub fn batch_at(c: usize) -> usize
    requires { c < slot_places }
    ensures { result ≡ batch_start c }
{
    layout::BATCHES_FROM + c * layout::BATCH_WORDS
}

pub fn reads_at(c: usize) -> usize
    requires { c < slot_places }
    ensures { result ≡ reads_start c }
{
    layout::READS_FROM + c * layout::HELD_WORDS
}

impl<'a> Insts<'a> {
    // The short part of a slot.
    #[tactic(auto, unfolding(crate::specs::Slots::short_at))]
    pub fn load(self, slot: Slot) -> Cell
        ensures { cell_of result ≡ short_at self.entry.words.now (place_of slot.0) }
    {
        inst_cell::load(self.words, place(slot))
    }

    // A slot's batch.
    pub fn batch(self, slot: Slot) -> Batch<'a>
        ensures { requests_of result.words.now ≡ batch_at self.entry.words.now (place_of slot.0) }
    {
        let a = batch_at(place(slot));
        Batch::new(&self.words[a..a + layout::BATCH_WORDS])
    }

    // The reads that a slot holds.
    pub fn reads(self, slot: Slot) -> Held<'a>
        ensures { reads_of result.words.now ≡ reads_at self.entry.words.now (place_of slot.0) }
    {
        let a = reads_at(place(slot));
        Held::new(&self.words[a..a + layout::HELD_WORDS])
    }

    pub fn count_reads(self, slot: Slot) -> usize
        ensures { (result ≡ length (reads_at self.entry.words.now (place_of slot.0))) × (result ≤ held_places) }
    {
        self.reads(slot).count()
    }

    // The value of the last Put of a key in a slot's batch.
    pub fn last_put(self, slot: Slot, key: Key) -> Option<u64>
        ensures { result ≡ last_put (bytes_of key) (batch_at self.entry.words.now (place_of slot.0)) }
    {
        inst_reqs::last_put(self.batch(slot), key)
    }

    // `status < Committed`.
    #[tactic(auto, unfolding(crate::specs::Slots::short_at, crate::specs::Slots::inst_in))]
    pub fn is_open(self, slot: Slot) -> bool
        ensures { result ≡ is_open (inst_in self.entry.words.now (place_of slot.0)).status }
    {
        inst_cell::is_open(self.words, place(slot))
    }

    #[tactic(auto, unfolding(crate::specs::Slots::short_at))]
    fn has_book(self, slot: Slot) -> bool
        ensures { result ≡ has_book (short_at self.entry.words.now (place_of slot.0)) }
    {
        inst_cell::has_book(self.words, place(slot))
    }

    // Whether reads wait in the slot's notice book.
    #[tactic(auto, using(crate::proofs::Laws::reads_wait, crate::proofs::Laws::no_book))]
    pub fn holds_reads(self, slot: Slot) -> bool
        ensures { result ≡ holds (inst_in self.entry.words.now (place_of slot.0)) }
    {
        self.has_book(slot) && 0 < self.count_reads(slot)
    }

    // The number of the window's first slot that passes.
    pub fn position<F: Fn(Slot) -> bool>(self, window: Window, passes: F) -> Option<usize>
        ghost test: { Instance → Bool }
        requires { F.IsAlwaysCallable passes × ((slot : Slot) (b : Bool) → F.post passes slot b → b ≡ test (inst_in self.words.now (place_of slot.0))) }
        ensures { result ≡ position_from test 0 (insts_of window.start.0 window.held self.entry.words.now) }
    {
        (0..window.held)
            .map(|k| window.slot(k))
            .position(|slot| passes(slot))
    }

    // Whether a slot of the window is below Committed.
    #[tactic(auto, using(crate::proofs::Rest::any_is))]
    pub fn any_open(self, window: Window) -> bool
        ensures { result ≡ any (λ (i : Instance). is_open i.status) (insts_of window.start.0 window.held self.entry.words.now) }
    {
        self.position(window, |slot| self.is_open(slot)).is_some()
    }

    // Whether a slot of the window holds reads.
    #[tactic(auto, using(crate::proofs::Rest::any_is))]
    pub fn any_holds(self, window: Window) -> bool
        ensures { result ≡ any holds (insts_of window.start.0 window.held self.entry.words.now) }
    {
        self.position(window, |slot| self.holds_reads(slot))
            .is_some()
    }
}

impl<'a> InstsMut<'a> {
    pub fn as_ref(&self) -> Insts<'_>
        ensures { result.words.now ≡ self.now.words.now }
    {
        Insts {
            words: &*self.words,
        }
    }

    pub fn store(&mut self, slot: Slot, cell: Cell)
        ensures same_reference { self.new.words.ghost_name ≡ self.old.words.ghost_name }
        ensures puts { PutsShort self.old.words.now (place_of slot.0) (cell_of cell) self.new.words.now }
    {
        inst_cell::store(self.words, place(slot), cell);
    }

    pub fn put_batch(&mut self, slot: Slot, batch: Batch<'_>)
        ensures same_reference { self.new.words.ghost_name ≡ self.old.words.ghost_name }
        ensures puts { PutsBatch self.old.words.now (place_of slot.0) (requests_of batch.entry.words.now) self.new.words.now }
    {
        let a = batch_at(place(slot));
        self.words[a..a + layout::BATCH_WORDS].copy_from_slice(&batch.words[..layout::BATCH_WORDS]);
    }

    // Its twin is `clear_reads`: each clears a part by the crate whose rows stand there.
    pub fn clear_batch(&mut self, slot: Slot)
        ensures same_reference { self.new.words.ghost_name ≡ self.old.words.ghost_name }
        ensures puts { PutsBatch self.old.words.now (place_of slot.0) [] self.new.words.now }
    {
        let a = batch_at(place(slot));
        inst_reqs::clear(&mut self.words[a..a + layout::BATCH_WORDS]);
    }

    pub fn clear_reads(&mut self, slot: Slot)
        ensures same_reference { self.new.words.ghost_name ≡ self.old.words.ghost_name }
        ensures puts { PutsReads self.old.words.now (place_of slot.0) [] self.new.words.now }
    {
        let a = reads_at(place(slot));
        inst_holding::clear(&mut self.words[a..a + layout::HELD_WORDS]);
    }

    // No reads wait where there is no notice book.
    #[tactic(auto, using(crate::proofs::Laws::book_missing, crate::proofs::Laws::book_there))]
    pub fn clear_unseen(&mut self, slot: Slot)
        ensures same_reference { self.new.words.ghost_name ≡ self.old.words.ghost_name }
        ensures puts { PutsReads self.old.words.now (place_of slot.0) (seen_reads (short_at self.old.words.now (place_of slot.0)).replica_bk (reads_at self.old.words.now (place_of slot.0))) self.new.words.now }
    {
        if !self.as_ref().has_book(slot) {
            self.clear_reads(slot);
        }
    }

    // A read after the others that a slot holds.
    pub fn push_read(&mut self, slot: Slot, x: ReadReq)
        requires { length (reads_at self.old.words.now (place_of slot.0)) < held_places }
        ensures same_reference { self.new.words.ghost_name ≡ self.old.words.ghost_name }
        ensures puts { PutsReads self.old.words.now (place_of slot.0) (reads_at self.old.words.now (place_of slot.0) ++ (read_of x ∷ [])) self.new.words.now }
    {
        let a = reads_at(place(slot));
        inst_holding::push(&mut self.words[a..a + layout::HELD_WORDS], x);
    }

    // A null slot; the reads held there are not seen without a notice book.
    fn null_slot(&mut self, slot: Slot)
        ensures same_reference { self.new.words.ghost_name ≡ self.old.words.ghost_name }
        ensures puts { Puts self.old.words.now (place_of slot.0) null_short [] (reads_at self.old.words.now (place_of slot.0)) self.new.words.now }
    {
        self.store(slot, Cell::default());
        self.clear_batch(slot);
    }

    // Null slots after those of the window, so that there are `to`.
    pub fn pad(&mut self, window: Window, to: usize)
        requires { (window.held ≤ to) × (to ≤ slot_places) }
        ensures same_reference { self.new.words.ghost_name ≡ self.old.words.ghost_name }
        ensures pads { (insts_of window.start.0 to self.new.words.now ≡ insts_of window.start.0 window.held self.old.words.now ++ replicate (to - window.held) null_instance) × (length self.new.words.now ≡ length self.old.words.now) }
    {
        for k in window.held..to {
            self.null_slot(window.slot(k));
        }
    }

    pub fn set_status(&mut self, slot: Slot, status: Status)
        ensures same_reference { self.new.words.ghost_name ≡ self.old.words.ghost_name }
        ensures puts { PutsShort self.old.words.now (place_of slot.0) (with_status (status_of status) (short_at self.old.words.now (place_of slot.0))) self.new.words.now }
    {
        inst_cell::set_status(self.words, place(slot), status);
    }
}

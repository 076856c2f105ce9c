// localread.rs: `refresh_highest_slot`, on the batch of a slot and the written keys, both in lent words.
#![tactic(auto)]

ghost use Rattle.std.specs.Prelude.{◌≡◌, [], ◌∷◌, ℕ, ◌+◌, ◌<◌, ◌≤◌, ltb, length};
ghost use Rattle.words.specs.Tab.{tab};
ghost use Rattle.ids.specs.Limits.{keys};
ghost use Rattle.layout.specs.Layout.{request_places, written_words};
ghost use Rattle.bodega.specs.Localread.{refresh_highest_slot};
ghost use Rattle.inst_reqs.specs.Batch.{request_of, request_at, requests_of};
ghost use Rattle.highest_slot.specs.Written.{written_of};
ghost use Rattle.highest_slot_refresh.specs.Refresh.{adds, Refreshes};

use highest_slot::{Written, WrittenMut};
use ids::Slot;
use inst_reqs::{Batch, Command, Request};

// Whether the i-th request adds a key: it is a Put, its key is not written, and no earlier request puts it.
#[tactic(auto, using(crate::proofs::Laws::get_adds, crate::proofs::Laws::put_adds))]
fn adds(written: Written<'_>, batch: Batch<'_>, i: usize) -> bool
    requires { i < request_places }
    ensures { result ≡ adds (request_at batch.entry.words.now i) (tab (request_at batch.entry.words.now) 0 i) (written_of written.entry.words.now) }
{
    let q = batch.get(i);
    match q.command {
        Command::Get => false,
        Command::Put(_) => {
            highest_slot::highest(written, q.key).is_none()
                && inst_reqs::last_put_among(batch, i, q.key).is_none()
        }
    }
}

// Whether the keys come to be more than 256, request by request: no further than the first that brings them there. To
// count all that add a key takes 44 % more instructions of all of `replay` over 40,000 lines that write many keys.
fn exceeds(written: Written<'_>, batch: Batch<'_>) -> bool
    ensures { (slot : ℕ) → result ≡ ltb keys (length (refresh_highest_slot slot (requests_of batch.entry.words.now) (written_of written.entry.words.now))) }
{
    let mut n = written.count();
    for i in 0..batch.count() {
        n += usize::from(adds(written, batch, i));
        if highest_slot::KEYS < n {
            return true;
        }
    }
    false
}

// Whether the batch would bring the written keys above 256, at whatever slot. Most batches have too few requests.
pub fn overflows(written: Written<'_>, batch: Batch<'_>) -> bool
    ensures { (slot : ℕ) → result ≡ ltb keys (length (refresh_highest_slot slot (requests_of batch.entry.words.now) (written_of written.entry.words.now))) }
{
    highest_slot::KEYS < written.count() + batch.count() && exceeds(written, batch)
}

// One request's part.
fn note_one(written: &mut WrittenMut<'_>, q: Request, slot: Slot)
    requires { length (refresh_highest_slot slot.0 (request_of q ∷ []) (written_of written.old.words.now)) ≤ keys }
    ensures same_reference { written.new.words.ghost_name ≡ written.old.words.ghost_name }
    ensures refreshes { Refreshes slot.0 (request_of q ∷ []) written.old.words.now written.new.words.now }
{
    match q.command {
        Command::Get => {}
        Command::Put(_) => {
            highest_slot::note(written, q.key, slot);
        }
    }
}

fn note_all(written: &mut WrittenMut<'_>, batch: Batch<'_>, slot: Slot)
    requires { length (refresh_highest_slot slot.0 (requests_of batch.words.now) (written_of written.old.words.now)) ≤ keys }
    ensures same_reference { written.new.words.ghost_name ≡ written.old.words.ghost_name }
    ensures refreshes { Refreshes slot.0 (requests_of batch.entry.words.now) written.old.words.now written.new.words.now }
{
    for q in batch.iter() {
        note_one(written, q, slot);
    }
}

// Each Put's key is written at a slot, or at the higher one that it has. A table made of a part of a buffer loses what
// became of the part, so the words come as they are lent.
pub fn refresh(words: &mut [u64], batch: Batch<'_>, slot: Slot)
    requires long { written_words ≤ length words.old }
    requires fits { length (refresh_highest_slot slot.0 (requests_of batch.words.now) (written_of words.old)) ≤ keys }
    ensures { Refreshes slot.0 (requests_of batch.entry.words.now) words.old words.new }
{
    note_all(&mut WrittenMut::new(words), batch, slot);
}

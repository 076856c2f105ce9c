// `highest_slot`: the written keys, in lent words: a table whose rows are slot, key.
#![tactic(auto)]

ghost use Rattle.std.specs.Prelude.{◌≡◌, refl, ◌+◌, ◌<◌, ◌≤◌, IfSome, length};
ghost use Rattle.layout.specs.Layout.{written_places, written_row};
ghost use Rattle.keys.specs.Same.{same_bytes};
ghost use Rattle.key_words.specs.Key.{bytes_of};
ghost use Rattle.bodega.specs.Localread.{highest_of};
ghost use Rattle.bodega.specs.Replica as machine;
ghost use Rattle.highest_slot.specs.Row.{near, read_back};
ghost use Rattle.highest_slot.specs.Written.{highest_in, highest_at, entry_at, entry_words, written_of, slot_in, place_of, Notes};

use ids::Slot;
use key_words::{Key, get_key, put_key};
use table::{Row, Table, TableMut};

// Written keys at most.
pub const KEYS: usize = layout::WRITTEN_PLACES;

// A written key, and the highest slot that wrote it.
#[derive(Clone, Copy)]
pub struct Entry {
    pub slot: Slot,
    pub key: Key,
}

// The type is `table`'s, so that what is looked up in it is a function which takes it, not a method.
pub type Written<'a> = Table<'a, Entry, KEYS>;

pub type WrittenMut<'a> = TableMut<'a, Entry, KEYS>;

impl Row for Entry {
    const WORDS: usize = layout::WRITTEN_ROW;

    ghost WORDS = { written_row };

    ghost View = { machine.Highest };

    ghost view = { highest_in };

    ghost at = { highest_at };

    ghost words = { entry_words };

    #[tactic(auto, unfolding(crate::specs::Written::highest_at))]
    fn get(s: &[u64], p: usize) -> Entry {
        Entry {
            slot: Slot(s[p]),
            key: get_key(s, p + 1),
        }
    }

    fn put(self, s: &mut [u64], p: usize) {
        s[p] = self.slot.0;
        put_key(s, p + 1, self.key);
    }

    ghost width = { λ x. refl };

    ghost near = { near };

    ghost back = { read_back };
}

// Whether the i-th entry is a key's.
#[tactic(auto, unfolding(crate::specs::Written::highest_at))]
fn is_at(written: Written<'_>, i: usize, key: Key) -> bool
    requires { i < written_places }
    ensures { result ≡ same_bytes (entry_at written.entry.words.now i).key (bytes_of key) }
{
    key_words::is_at(written.words, 1 + i * layout::WRITTEN_ROW + 1, key)
}

// The place of a key's first entry.
fn find(written: Written<'_>, key: Key) -> Option<usize>
    ensures place { result ≡ place_of 0 (bytes_of key) (written_of written.entry.words.now) }
    ensures below { IfSome result (λ i. i < written_places) }
{
    (0..written.count()).find(|&i| is_at(written, i, key))
}

// The highest slot that wrote a key.
pub fn highest(written: Written<'_>, key: Key) -> Option<Slot>
    ensures { slot_in result ≡ highest_of (bytes_of key) (written_of written.entry.words.now) }
{
    let i = find(written, key)?;
    Some(written.get(i).slot)
}

// A write of a key at a slot; false, and nothing changed, where it would be a 257th key. No `Result`, as in
// `TableMut::push`.
pub fn note(written: &mut WrittenMut<'_>, key: Key, slot: Slot) -> bool
    ensures same_reference { written.new.words.ghost_name ≡ written.old.words.ghost_name }
    ensures long { length written.new.words.now ≡ length written.old.words.now }
    ensures notes { Notes written.old.words.now (bytes_of key) slot.0 result written.new.words.now }
{
    let Some(i) = find(written.as_ref(), key) else {
        return written.push(Entry { slot, key });
    };
    // The slot alone: storing the whole row again takes 24 instructions more.
    let p = 1 + i * layout::WRITTEN_ROW;
    written.words[p] = slot.0.max(written.words[p]);
    true
}

// A table in lent words: how many rows, and then the rows, each of the same width.
#![tactic(auto)]

ghost use Rattle.std.specs.Prelude.{◌≡◌, List, [], ℕ, ◌+◌, ◌*◌, ◌<◌, ◌≤◌, length, set};
ghost use Rattle.words.specs.Counted.{counted};
ghost use Rattle.words.specs.Writes.{writes, Agrees};
ghost use Rattle.std.specs.Iterator.{YieldsFirstBy, item_count};
ghost use Rattle.table.specs.Table.{Pushes, rows_from};

use std::alloc::AllocError;
use std::marker::PhantomData;

// A row: its width, what it stands for, its words, and that a row which is stored is read back. `get` and `put` take
// words and a place in them: to cut the row out is no plainer, since the laws speak of places.
pub trait Row: Copy {
    const WORDS: usize;

    ghost WORDS: { ℕ };

    ghost View: { Type 0 };

    ghost view: { Self → View };

    // What stands at word p.
    ghost at: { List ℕ → ℕ → View };

    ghost words: { Self → List ℕ };

    fn get(s: &[u64], p: usize) -> Self
        requires { p + WORDS ≤ length s.now }
        ensures { view result ≡ at s.now p };

    fn put(self, s: &mut [u64], p: usize)
        requires { p + WORDS ≤ length s.old }
        ensures { s.new ≡ writes s.old p (words self) };

    ghost width: { (x : Self) → length (words x) ≡ WORDS };

    ghost near: { (s' s : List ℕ) (p : ℕ) → Agrees s' s p (p + WORDS) → at s' p ≡ at s p };

    ghost back: { (s : List ℕ) (p : ℕ) (x : Self) → p + WORDS ≤ length s → at (writes s p (words x)) p ≡ view x };
}

// Lent to be read: at most PLACES rows.
pub struct Table<'a, R: Row, const PLACES: usize> {
    pub words: &'a [u64],
    rows: PhantomData<R>,
    ghost whole: { 1 + PLACES * R.WORDS ≤ length words.now },
}

impl<'a, R: Row, const PLACES: usize> Clone for Table<'a, R, PLACES> {
    fn clone(&self) -> Result<Self, AllocError> {
        Ok(*self)
    }
}

impl<'a, R: Row, const PLACES: usize> Copy for Table<'a, R, PLACES> {}

impl<'a, R: Row, const PLACES: usize> Table<'a, R, PLACES> {
    pub fn new(lent: &'a [u64]) -> Self
        requires { 1 + PLACES * R.WORDS ≤ length lent.now }
        ensures { result.words.now ≡ lent.now }
    {
        Table {
            words: lent,
            rows: PhantomData,
        }
    }

    #[tactic(auto, using(words::specs::Counted::length_counted))]
    pub fn count(self) -> usize
        ensures { (result ≡ length (counted R.at R.WORDS PLACES self.entry.words.now)) × (result ≤ PLACES) }
    {
        self.words[0].min(PLACES as u64) as usize
    }

    // The i-th row. Its bound is asked for, as a slice asks for an index's; callers with an index ask for it again.
    pub fn get(self, i: usize) -> R
        requires { i < PLACES }
        ensures { R.view result ≡ R.at self.entry.words.now (1 + i * R.WORDS) }
    {
        R::get(self.words, 1 + i * R::WORDS)
    }

    pub fn iter(self) -> Rows<'a, R, PLACES>
        ensures { rows_from R.at R.WORDS PLACES result.table.words.now result.next ≡ counted R.at R.WORDS PLACES self.entry.words.now }
    {
        Rows {
            table: self,
            next: 0,
            count: self.count(),
        }
    }
}

// The rows of a table one by one, from the next on. A number, as the rows are words of the table that is lent.
#[derive(Drop)]
pub struct Rows<'a, R: Row, const PLACES: usize> {
    table: Table<'a, R, PLACES>,
    next: usize,
    count: usize,
    ghost counts: { count ≡ length (counted R.at R.WORDS PLACES table.words.now) },
}

impl<'a, R: Row, const PLACES: usize> Iterator for Rows<'a, R, PLACES> {
    type Item = R;

    ghost next_gives = { YieldsFirstBy R.view (λ s. rows_from R.at R.WORDS PLACES s.table.words.now s.next) };

    ghost remaining = { item_count (λ s. rows_from R.at R.WORDS PLACES s.table.words.now s.next) };

    fn next(&mut self) -> Option<R> {
        let i = self.next;
        if i >= self.count {
            return None;
        }
        self.next = i + 1;
        Some(self.table.get(i))
    }
}

// Lent to be changed: at most PLACES rows.
#[derive(Drop)]
pub struct TableMut<'a, R: Row, const PLACES: usize> {
    pub words: &'a mut [u64],
    rows: PhantomData<R>,
    ghost whole: { 1 + PLACES * R.WORDS ≤ length words.now },
}

impl<'a, R: Row, const PLACES: usize> TableMut<'a, R, PLACES> {
    pub fn new(words: &'a mut [u64]) -> Self
        requires { 1 + PLACES * R.WORDS ≤ length words.old }
        ensures same_reference { result.words.ghost_name ≡ words.entry.ghost_name }
        ensures lent { result.words.now ≡ words.old }
    {
        TableMut {
            words,
            rows: PhantomData,
        }
    }

    pub fn as_ref(&self) -> Table<'_, R, PLACES>
        ensures { result.words.now ≡ self.now.words.now }
    {
        Table::new(self.words)
    }

    // A row after the others; false, and nothing changed, where there is no place left. No condition alone: where it is
    // true, the row is put. No `Result`, here and in what hands it on: the callers count their rows first.
    pub fn push(&mut self, row: R) -> bool
        ensures same_reference { self.new.words.ghost_name ≡ self.old.words.ghost_name }
        ensures long { length self.new.words.now ≡ length self.old.words.now }
        ensures pushes { Pushes R.at R.WORDS PLACES self.old.words.now (R.view row) result self.new.words.now }
    {
        let n = self.as_ref().count();
        if n == PLACES {
            return false;
        }
        row.put(self.words, 1 + n * R::WORDS);
        self.words[0] = (n + 1) as u64;
        true
    }

    #[tactic(auto, using(words::specs::Counted::counted_clear))]
    pub fn clear(&mut self)
        ensures same_reference { self.new.words.ghost_name ≡ self.old.words.ghost_name }
        ensures empty { counted R.at R.WORDS PLACES self.new.words.now ≡ [] }
        ensures first { self.new.words.now ≡ set self.old.words.now 0 0 }
    {
        self.words[0] = 0;
    }
}

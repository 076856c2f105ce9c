// `KeyRangeMap` of keyrange.rs: key ranges and their masks as rows in lent words.
#![tactic(auto)]

ghost use Rattle.std.specs.Prelude.{◌≡◌, false, ℕ, ◌+◌, ◌*◌, ◌≤◌, List, Option, length, IfErr};
ghost use Rattle.std.specs.Iterator.{YieldsFirstBy, item_count};
ghost use Rattle.words.specs.Writes.{writes};
ghost use Rattle.layout.specs.Layout.{roster_row, roster_words};
ghost use Rattle.inty.specs.Value.{value_of};
ghost use Rattle.roster_ranges.specs.Range.{Range, inside, at, mask_at, goes_on, push as pushed, push_all, below, above, each, overwrite, remask, remasked};
ghost use Rattle.bitmap.specs.Bitmap.{set_to};
ghost use Rattle.words.specs.Part.{Untouched};
ghost use Rattle.roster_map.specs.Rows.{range_of, row_words, range_at, ranges_of, rows_left, extends_last, range_list, SameWords, Stores};

use ids::{Refusal, Replica};
use inty::Inty;

#[derive(Clone, Copy, PartialEq, Eq)]
pub struct Row {
    pub start: Inty,
    pub end: Inty,
    pub mask: u64,
}

// Rows stored at most.
pub const RANGES: usize = layout::ROSTER_PLACES;

// Words of the rows that one more range can make of them: each is cut in two at most.
const CUT_WORDS: usize = (2 * layout::ROSTER_PLACES + 1) * layout::ROSTER_ROW;

pub fn get_row(rows: &[u64], i: usize) -> Row
    requires { i * roster_row + roster_row ≤ length rows.now }
    ensures { range_of result ≡ range_at rows.now (i * roster_row) }
{
    let (rows, _) = rows.as_chunks::<{ layout::ROSTER_ROW }>();
    let [start_hi, start_lo, end_hi, end_lo, mask] = rows[i];
    Row {
        start: Inty {
            hi: start_hi,
            lo: start_lo,
        },
        end: Inty {
            hi: end_hi,
            lo: end_lo,
        },
        mask,
    }
}

fn put_row(rows: &mut [u64], i: usize, row: Row)
    requires { i * roster_row + roster_row ≤ length rows.old }
    ensures { rows.new ≡ writes rows.old (i * roster_row) (row_words row) }
{
    let p = i * layout::ROSTER_ROW;
    rows[p..p + layout::ROSTER_ROW].copy_from_slice(&[
        row.start.hi,
        row.start.lo,
        row.end.hi,
        row.end.lo,
        row.mask,
    ]);
}

// Whether r goes on from x with the same mask.
pub fn goes_on(x: Row, r: Row) -> bool
    ensures { result ≡ goes_on (range_of x) (range_of r) }
{
    x.mask == r.mask && x.end.is_next(r.start)
}

impl Row {
    // What of it lies below a.
    fn below(self, a: Inty) -> Option<Row>
        ensures { range_list result ≡ below (value_of a) (range_of self) }
    {
        let part = Row {
            end: self.end.min(a.pred()),
            ..self
        };
        (self.start < a).then_some(part)
    }

    // What of it lies above b.
    fn above(self, b: Inty) -> Option<Row>
        ensures { range_list result ≡ above (value_of b) (range_of self) }
    {
        let next = b.succ()?;
        let part = Row {
            start: self.start.max(next),
            ..self
        };
        (b < self.end).then_some(part)
    }

    fn without(self, id: Replica) -> Row
        ensures { range_of result ≡ remask (λ m. set_to m id.0 false) (range_of self) }
    {
        Row {
            mask: bitmap::set(self.mask, id, false),
            ..self
        }
    }
}

// The first `count` rows of lent words: a number, since rows are put and dropped in the same words (no heap).
#[derive(Clone, Copy)]
pub struct RangeMap<'a> {
    pub rows: &'a [u64],
    pub count: usize,
    ghost within: { count * roster_row ≤ length rows.now },
}

impl<'a> RangeMap<'a> {
    #[tactic(auto, using(crate::proofs::Laws::all_left))]
    pub fn iter(self) -> Rows<'a>
        ensures { rows_left result.map.rows.now result.next result.map.count ≡ ranges_of self.entry.rows.now self.entry.count }
    {
        Rows { map: self, next: 0 }
    }

    #[tactic(auto, unfolding(crate::specs::Rows::range_at))]
    fn start(&self, i: usize) -> Inty
        requires { i * roster_row + roster_row ≤ length self.now.rows.now }
        ensures { value_of result ≡ (range_at self.now.rows.now (i * roster_row)).from }
    {
        let p = i * layout::ROSTER_ROW;
        Inty {
            hi: self.rows[p],
            lo: self.rows[p + 1],
        }
    }

    #[tactic(auto, unfolding(crate::specs::Rows::range_at))]
    fn end(&self, i: usize) -> Inty
        requires { i * roster_row + roster_row ≤ length self.now.rows.now }
        ensures { value_of result ≡ (range_at self.now.rows.now (i * roster_row)).to }
    {
        let p = i * layout::ROSTER_ROW;
        Inty {
            hi: self.rows[p + 2],
            lo: self.rows[p + 3],
        }
    }

    // Whether the i-th row holds n. Its end is read and compared first: of a row that lies below n, as most do that a
    // search passes, nothing else is read.
    fn holds(&self, i: usize, n: Inty) -> bool
        requires { i * roster_row + roster_row ≤ length self.now.rows.now }
        ensures { result ≡ inside (range_at self.now.rows.now (i * roster_row)) (value_of n) }
    {
        n <= self.end(i) && self.start(i) <= n
    }

    // The mask stored at n. No search over `iter`, which reads each row whole.
    pub fn at(&self, n: Inty) -> Option<u64>
        ensures { result ≡ at (ranges_of self.now.rows.now self.now.count) (value_of n) }
    {
        for i in 0..self.count {
            if self.holds(i, n) {
                return Some(self.rows[i * layout::ROSTER_ROW + 4]);
            }
        }
        None
    }

    // The mask at n, the default where none is stored.
    pub fn get(&self, default: u64, n: Inty) -> u64
        ensures { result ≡ mask_at default (ranges_of self.now.rows.now self.now.count) (value_of n) }
    {
        self.at(n).unwrap_or(default)
    }
}

// The rows one by one, from the next on. A number, as the rows are lent words.
#[derive(Drop)]
pub struct Rows<'a> {
    map: RangeMap<'a>,
    next: usize,
}

impl Iterator for Rows<'_> {
    type Item = Row;

    ghost next_gives = { YieldsFirstBy range_of (λ s. rows_left s.map.rows.now s.next s.map.count) };

    ghost remaining = { item_count (λ s. rows_left s.map.rows.now s.next s.map.count) };

    #[tactic(auto, using(crate::proofs::Laws::first_left, crate::proofs::Laws::none_left))]
    fn next(&mut self) -> Option<Row> {
        let i = self.next;
        if i >= self.map.count {
            return None;
        }
        self.next = i + 1;
        Some(get_row(self.map.rows, i))
    }
}

// `RangeMap` to change.
#[derive(Drop)]
pub struct RangeMapMut<'a> {
    pub rows: &'a mut [u64],
    pub count: usize,
    ghost within: { count * roster_row ≤ length rows.now },
}

impl RangeMapMut<'_> {
    fn as_ref(&self) -> RangeMap<'_>
        ensures { (result.rows.now ≡ self.now.rows.now) × (result.count ≡ self.now.count) }
    {
        RangeMap {
            rows: self.rows,
            count: self.count,
        }
    }

    fn row(&self, i: usize) -> Row
        requires { i * roster_row + roster_row ≤ length self.now.rows.now }
        ensures { range_of result ≡ range_at self.now.rows.now (i * roster_row) }
    {
        get_row(self.rows, i)
    }

    #[tactic(auto, using(crate::proofs::Laws::extends_some, crate::proofs::Laws::extends_none))]
    fn extends_last(&self, row: Row) -> bool
        ensures { result ≡ extends_last (ranges_of self.now.rows.now self.now.count) (range_of row) }
    {
        self.count > 0 && goes_on(self.row(self.count - 1), row)
    }

    // A row after the last.
    #[tactic(auto, using(crate::proofs::Laws::extends_pos, crate::proofs::Laws::push_adds, crate::proofs::Laws::put_beyond))]
    fn push(&mut self, row: Row)
        requires { self.old.count * roster_row + roster_row ≤ length self.old.rows.now }
        ensures words { SameWords self.old.rows self.new.rows }
        ensures pushed { ranges_of self.new.rows.now self.new.count ≡ pushed (ranges_of self.old.rows.now self.old.count) (range_of row) }
        ensures few { self.new.count ≤ self.old.count + 1 }
        ensures beyond { Untouched ((self.old.count + 1) * roster_row) self.old.rows.now self.new.rows.now }
    {
        if self.extends_last(row) {
            let last = self.count - 1;
            let x = self.row(last);
            let joined = Row { end: row.end, ..x };
            put_row(self.rows, last, joined);
        } else {
            put_row(self.rows, self.count, row);
            self.count += 1;
        }
    }

    // What `keep` keeps of each row of `from`.
    #[tactic(auto, using(crate::proofs::Laws::pass_start))]
    fn pass<F: Fn(Row) -> Option<Row>>(&mut self, from: RangeMap<'_>, keep: F)
        ghost kept: { Range → List Range }
        requires room { self.old.count * roster_row + from.count * roster_row ≤ length self.old.rows.now }
        requires keeps { F.IsAlwaysCallable keep × ((r : Row) (o : Option Row) → F.post keep r o → range_list o ≡ kept (range_of r)) }
        ensures words { SameWords self.old.rows self.new.rows }
        ensures passed { ranges_of self.new.rows.now self.new.count ≡ push_all (ranges_of self.old.rows.now self.old.count) (each kept (ranges_of from.entry.rows.now from.entry.count)) }
        ensures few { self.new.count ≤ self.old.count + from.entry.count }
    {
        for i in 0..from.count {
            if let Some(row) = keep(get_row(from.rows, i)) {
                self.push(row);
            }
        }
    }

    // The rows of out in place of these.
    fn store(&mut self, out: RangeMap<'_>) -> Result<(), Refusal>
        requires { roster_words ≤ length self.old.rows.now }
        ensures words { SameWords self.old.rows self.new.rows }
        ensures stored { Stores (ranges_of out.entry.rows.now out.entry.count) self.old.rows.now result self.new.rows.now self.new.count }
        ensures refused { IfErr result (λ e. self.new.count ≡ self.old.count) }
    {
        if out.count > RANGES {
            return Err(Refusal::TooManyRanges);
        }
        words::copy_words(self.rows, out.rows, out.count * layout::ROSTER_ROW);
        self.count = out.count;
        Ok(())
    }

    // `set`: w over the rows.
    pub fn set(&mut self, w: Row) -> Result<(), Refusal>
        requires { (self.old.count ≤ 64) × (roster_words ≤ length self.old.rows.now) }
        ensures words { SameWords self.old.rows self.new.rows }
        ensures stored { Stores (overwrite (ranges_of self.old.rows.now self.old.count) (range_of w)) self.old.rows.now result self.new.rows.now self.new.count }
        ensures refused { IfErr result (λ e. self.new.count ≡ self.old.count) }
    {
        // A fixed array, since there is no heap.
        let mut words = [0; CUT_WORDS];
        let mut out = RangeMapMut {
            rows: &mut words,
            count: 0,
        };
        let rows = self.as_ref();
        out.pass(rows, |row| row.below(w.start));
        out.push(w);
        out.pass(rows, |row| row.above(w.end));
        self.store(out.as_ref())
    }

    // A replica out of each row. In place, since no more rows stand than were read.
    #[tactic(auto, using(crate::proofs::Laws::filter_start, crate::proofs::Laws::filter_end))]
    pub fn filter(&mut self, id: Replica)
        ensures words { SameWords self.old.rows self.new.rows }
        ensures filtered { ranges_of self.new.rows.now self.new.count ≡ remasked (λ m. set_to m id.0 false) (ranges_of self.old.rows.now self.old.count) }
        ensures few { self.new.count ≤ self.old.count }
        ensures beyond { Untouched (self.old.count * roster_row) self.old.rows.now self.new.rows.now }
    {
        let count = self.count;
        self.count = 0;
        for i in 0..count {
            let row = self.row(i);
            self.push(row.without(id));
        }
    }
}

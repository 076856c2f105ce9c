// The roster that a heartbeat carries, beside the node's own: whether they are the same, whether one names replicas
// that are not there, and its rows copied.
#![tactic(auto)]

ghost use Rattle.std.specs.Prelude.{◌≡◌, ◌&&◌, not, List, [], ◌∷◌, ℕ, ◌+◌, ◌-◌, ◌*◌, ◌≤◌, ◌<◌, ltb, length, take};
ghost use Rattle.std.specs.Prelude.{Some};
ghost use Rattle.words.specs.Tab.{tab};
ghost use Rattle.words.specs.Writes.{writes};
ghost use Rattle.layout.specs.Layout.{roster_row, roster_words};
ghost use Rattle.bitmap.specs.Bitmap.{fits};
ghost use Rattle.roster_ranges.specs.Range.{Range, goes_on};
ghost use Rattle.roster_ranges.specs.Canon.{follows, heads, is_canon};
ghost use Rattle.roster_map.specs.Rows.{range_of, range_at, ranges_of};
ghost use Rattle.roster_conf.specs.Conf.{same, same_range, same_ranges};
ghost use Rattle.roster_conf.specs.Edits.{view as roster_of};
ghost use Rattle.bodega.specs.Grounds.{any, unformed, foreign_leader, foreign_mask};
ghost use Rattle.bodega.specs.Heartbeat.{from_proposer};

use ids::{Ballot, Replica};
use roster_conf::RespondersConf;
use roster_map::Row;

// Row by row: `==` of the slices takes half as many instructions again.
fn same_rows(c: RespondersConf, crows: &[u64], d: RespondersConf, drows: &[u64]) -> bool
    requires { (c.count * roster_row ≤ length crows.now) × (d.count * roster_row ≤ length drows.now) }
    ensures { result ≡ same_ranges (ranges_of crows.now c.count) (ranges_of drows.now d.count) }
{
    c.count == d.count
        && (0..c.count).all(|i| roster_map::get_row(crows, i) == roster_map::get_row(drows, i))
}

// `==`: as they are stored. By name, since the rows are lent beside the short part, and so is `copy`.
pub fn same(c: RespondersConf, crows: &[u64], d: RespondersConf, drows: &[u64]) -> bool
    requires { (c.count * roster_row ≤ length crows.now) × (d.count * roster_row ≤ length drows.now) }
    ensures { result ≡ same (roster_of c crows.now) (roster_of d drows.now) }
{
    c.leader == d.leader && same_rows(c, crows, d, drows) && c.default == d.default
}

// Whether y begins after x ends, and does not go on from it.
fn is_apart(x: Row, y: Row) -> bool
    ensures { result ≡ ltb (range_of x).to (range_of y).from && not (goes_on (range_of x) (range_of y)) }
{
    x.end < y.start && !roster_map::goes_on(x, y)
}

// Whether row i of n is a range that the next one does not touch.
fn heads(rows: &[u64], i: usize, n: usize) -> bool
    requires { (i < n) × (n * roster_row ≤ length rows.now) }
    ensures { result ≡ heads (range_at rows.now (i * roster_row)) (tab (λ j. range_at rows.now (j * roster_row)) (i + 1) (n - (i + 1))) }
{
    let row = roster_map::get_row(rows, i);
    row.start <= row.end && (i + 1 >= n || is_apart(row, roster_map::get_row(rows, i + 1)))
}

// Whether no edits make such rows.
pub fn is_unformed(c: RespondersConf, rows: &[u64]) -> bool
    requires { (c.count ≤ 64) × (roster_words ≤ length rows.now) }
    ensures { result ≡ unformed (Some (roster_of c rows.now)) }
{
    !(0..c.count).all(|i| heads(rows, i, c.count))
}

// The leader is not below the population.
pub fn foreign_leader(population: u8, c: RespondersConf) -> bool
    ensures { (rows : List ℕ) → result ≡ foreign_leader population (Some (roster_of c rows)) }
{
    c.leader.is_some_and(|l| l.0 >= population)
}

// A mask has a bit at or above the population.
pub fn foreign_mask(population: u8, c: RespondersConf, rows: &[u64]) -> bool
    requires { c.count * roster_row ≤ length rows.now }
    ensures { result ≡ foreign_mask population (Some (roster_of c rows.now)) }
{
    (0..c.count).any(|i| !bitmap::fits(roster_map::get_row(rows, i).mask, population))
        || !bitmap::fits(c.default, population)
}

// The rows of c, from one lent buffer into another; what lies past them stays as it was.
#[tactic(auto, using(crate::proofs::Laws::copied))]
pub fn copy(c: RespondersConf, from: &[u64], to: &mut [u64])
    requires { (c.count ≤ 64) × (roster_words ≤ length from.now) × (roster_words ≤ length to.old) }
    ensures { (roster_of c to.new ≡ roster_of c from.now) × (to.new ≡ writes to.old 0 (take (c.count * roster_row) from.now)) }
{
    words::copy_words(to, from, c.count * layout::ROSTER_ROW);
}

// Whether the peer proposed the ballot: its low byte is the proposer's number and one.
pub fn from_proposer(peer: Replica, ballot: Ballot) -> bool
    ensures { result ≡ from_proposer peer.0 ballot.0 }
{
    ballot.0 % 256 == u64::from(peer.0) + 1
}

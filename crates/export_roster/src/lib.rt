// Key reading, roster edits and lookup over words that the caller lends, for functions that are exported: an enum's
// answer is a number.
#![tactic(auto)]

ghost use Rattle.std.specs.Prelude.{◌≡◌};
ghost use Rattle.keys.specs.Read.{read_key};
ghost use Rattle.roster_conf.specs.Edit.{SetResponders, SetFull, IntoFiltered};
ghost use Rattle.roster_conf.specs.Edits.{lookup};
ghost use Rattle.export_roster.specs.Numbers.{key_of, plain, count_of, Counts, mask_of};

use ids::{Refusal, Replica};
use roster_conf::RespondersConf;

// read is 1, or 0 where the key does not read. Numbers stand in place of an `Option` or a `Result` in these three: the
// C interface has neither.
#[repr(C)]
#[derive(Clone, Copy)]
pub struct Key {
    pub read: u64,
    pub hi: u64,
    pub lo: u64,
}

// number is 0 where the edit is taken, or the refusal; count is how many rows stand in the lent words then.
#[repr(C)]
#[derive(Clone, Copy)]
pub struct Count {
    pub number: u64,
    pub count: usize,
}

// found is 0 for no roster, 1 for a mask, 2 where the words are too few or the count too large.
#[repr(C)]
#[derive(Clone, Copy)]
pub struct Mask {
    pub found: u64,
    pub mask: u64,
}

// A roster whose rows are lent beside their number: the C interface has slices and plain structs only.
fn conf(count: usize, default: u64) -> RespondersConf
    ensures { result ≡ plain count default }
{
    RespondersConf {
        leader: None,
        count,
        default,
    }
}

fn counted(edited: Result<RespondersConf, Refusal>, count: usize) -> Count
    ensures { result ≡ count_of edited count }
{
    match edited {
        Ok(next) => Count {
            number: 0,
            count: next.count,
        },
        Err(refusal) => Count {
            number: refusal.number(),
            count,
        },
    }
}

#[tactic(auto, using(crate::proofs::Laws::key_unread))]
pub fn key_to_inty(key: &[u8]) -> Key
    ensures { result ≡ key_of (read_key key.now) }
{
    match keys::key_to_inty(key) {
        Some(n) => Key {
            read: 1,
            hi: n.hi,
            lo: n.lo,
        },
        None => Key {
            read: 0,
            hi: 0,
            lo: 0,
        },
    }
}

// `set_responders` of a roster with no leader and default 0.
#[tactic(auto, using(crate::proofs::Laws::range_counts))]
pub fn set_responders(
    rows: &mut [u64],
    count: usize,
    population: u8,
    start: &[u8],
    end: &[u8],
    mask: u64,
) -> Count
    ensures { Counts (SetResponders start.now end.now mask) population count rows.old result rows.new }
{
    let edited = conf(count, 0).set_responders(rows, population, start, end, mask);
    counted(edited, count)
}

// `set_full` of such a roster.
#[tactic(auto, using(crate::proofs::Laws::whole_counts))]
pub fn set_full(rows: &mut [u64], count: usize, population: u8, mask: u64) -> Count
    ensures { Counts (SetFull mask) population count rows.old result rows.new }
{
    counted(conf(count, 0).set_full(rows, population, mask), count)
}

// `into_filtered` of such a roster.
#[tactic(auto, using(crate::proofs::Laws::drop_counts))]
pub fn into_filtered(rows: &mut [u64], count: usize, population: u8, id: u8) -> Count
    ensures { Counts (IntoFiltered id) population count rows.old result rows.new }
{
    let edited = conf(count, 0).into_filtered(rows, population, Replica(id));
    counted(edited, count)
}

// `get_responders_by_key` of a roster with no leader.
pub fn get_responders_by_key(rows: &[u64], count: usize, default: u64, key: &[u8]) -> Mask
    ensures { result ≡ mask_of (lookup (plain count default) rows.now key.now) }
{
    match conf(count, default).get_responders_by_key(rows, key) {
        Ok(Some(mask)) => Mask { found: 1, mask },
        Ok(None) => Mask { found: 0, mask: 0 },
        Err(_) => Mask { found: 2, mask: 0 },
    }
}

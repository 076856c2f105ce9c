// `RespondersConf` of keyrange.rs: a roster. Its ranges are rows in lent words; the short part goes by value. So each
// function takes the rows beside it, which is document 01's form of `&mut self`.
#![tactic(auto)]

ghost use Rattle.std.specs.Prelude.{◌≡◌, List, ℕ, ◌≤◌, length};
ghost use Rattle.ids.specs.Leader.{leader_of};
ghost use Rattle.layout.specs.Layout.{roster_words};
ghost use Rattle.roster_conf.specs.Conf.{empty, leader_without};
ghost use Rattle.roster_conf.specs.Edit.{SetLeader, SetResponders, SetFull, IntoFiltered, ResetFull};
ghost use Rattle.roster_conf.specs.Edits.{view, holds_rows, Gives, Edits, lookup};
ghost use Rattle.roster_conf.specs.Asks.{ready, stored, storing, Asks};

use ids::{Refusal, Replica};
use inty::Inty;
use roster_map::{RangeMap, RangeMapMut, Row};

// `count` of the lent rows are its ranges. A host in C may hand over any count, so that it is at most 64 is no ghost
// field: the functions that need it ask for it, and for whole rows.
#[derive(Clone, Copy, Default)]
pub struct RespondersConf {
    pub leader: Option<Replica>,
    pub count: usize,
    pub default: u64,
}

// Whether the words hold 64 rows, and no more are counted.
pub fn is_whole(len: usize, count: usize) -> bool
    ensures { result ≡ holds_rows len count }
{
    len >= RespondersConf::WORDS && count <= RespondersConf::RANGES
}

// 4, 5, 6, 7: a range that can be stored in some roster. An edit's arguments stand apart, as a line and a C call have
// them: a struct of the keys and the mask would be made only to be taken apart here.
#[tactic(auto, using(crate::proofs::Laws::range_4, crate::proofs::Laws::range_5, crate::proofs::Laws::range_5_end, crate::proofs::Laws::range_6, crate::proofs::Laws::range_6_end, crate::proofs::Laws::range_7, crate::proofs::Laws::range_asked))]
fn ask(population: u8, start: &[u8], end: &[u8], mask: u64) -> Result<Row, Refusal>
    ensures { Asks population start.now end.now mask result }
{
    if !bitmap::fits(mask, population) {
        return Err(Refusal::MaskTooWide);
    }
    if start.len() > keys::KEY_BYTES || end.len() > keys::KEY_BYTES {
        return Err(Refusal::KeyTooLong);
    }
    let start = keys::key_to_inty(start).ok_or(Refusal::UnreadBound)?;
    let end = keys::key_to_inty(end).ok_or(Refusal::UnreadBound)?;
    if end < start {
        return Err(Refusal::RangeReversed);
    }
    Ok(Row { start, end, mask })
}

// 17: the row over those of a roster, where they stay 64 or fewer.
#[tactic(auto, using(crate::proofs::Laws::store_17, crate::proofs::Laws::store_taken))]
fn store(conf: RespondersConf, rows: &mut [u64], w: Row) -> Result<RespondersConf, Refusal>
    requires { (conf.count ≤ 64) × (roster_words ≤ length rows.old) }
    ensures { Gives (storing (stored (view conf rows.old) w)) result rows.old rows.new }
{
    let mut map = RangeMapMut {
        rows,
        count: conf.count,
    };
    map.set(w)?;
    Ok(RespondersConf {
        count: map.count,
        ..conf
    })
}

// No leader where id is it.
fn leader_without(leader: Option<Replica>, id: Replica) -> Option<Replica>
    ensures { leader_of result ≡ leader_without id.0 (leader_of leader) }
{
    leader.filter(|l| *l != id)
}

impl RespondersConf {
    // Ranges stored at most, and the words that hold them.
    pub const RANGES: usize = roster_map::RANGES;

    pub const WORDS: usize = layout::ROSTER_WORDS;

    #[tactic(auto, unfolding(crate::specs::Edits::view, roster_map::specs::Rows::ranges_of))]
    pub fn empty() -> RespondersConf
        ensures { ((rows : List ℕ) → view result rows ≡ empty) × (result.count ≤ 64) }
    {
        RespondersConf::default()
    }

    // 2: whether an edit finds whole rows, and the population is 1 to 64.
    fn check_ready(self, len: usize, population: u8) -> Result<(), Refusal>
        ensures { result ≡ ready self.count len population }
    {
        if is_whole(len, self.count) && population >= 1 && population <= Replica::LIMIT {
            Ok(())
        } else {
            Err(Refusal::NotReady)
        }
    }

    #[tactic(auto, using(crate::proofs::Laws::unready, crate::proofs::Laws::leader_3, crate::proofs::Laws::leader_set))]
    pub fn set_leader(
        self,
        rows: &[u64],
        population: u8,
        leader: Replica,
    ) -> Result<RespondersConf, Refusal>
        ensures { Edits (SetLeader leader.0) population self rows.now result rows.now }
    {
        self.check_ready(rows.len(), population)?;
        if leader.0 >= population {
            return Err(Refusal::NoSuchReplica);
        }
        Ok(RespondersConf {
            leader: Some(leader),
            ..self
        })
    }

    // For the keys from start to end.
    #[tactic(auto, using(crate::proofs::Laws::unready, crate::proofs::Laws::range_refused, crate::proofs::Laws::range_stored))]
    pub fn set_responders(
        self,
        rows: &mut [u64],
        population: u8,
        start: &[u8],
        end: &[u8],
        mask: u64,
    ) -> Result<RespondersConf, Refusal>
        ensures { Edits (SetResponders start.now end.now mask) population self rows.old result rows.new }
    {
        self.check_ready(rows.len(), population)?;
        let w = ask(population, start, end, mask)?;
        store(self, rows, w)
    }

    // For all keys.
    #[tactic(auto, using(crate::proofs::Laws::unready, crate::proofs::Laws::full_4, crate::proofs::Laws::full_stored))]
    pub fn set_full(
        self,
        rows: &mut [u64],
        population: u8,
        mask: u64,
    ) -> Result<RespondersConf, Refusal>
        ensures { Edits (SetFull mask) population self rows.old result rows.new }
    {
        self.check_ready(rows.len(), population)?;
        if !bitmap::fits(mask, population) {
            return Err(Refusal::MaskTooWide);
        }
        let w = Row {
            start: Inty::ZERO,
            end: Inty::MAX,
            mask,
        };
        store(self, rows, w)
    }

    #[tactic(auto, using(crate::proofs::Laws::unready, crate::proofs::Laws::filter_3, crate::proofs::Laws::filter_set))]
    pub fn into_filtered(
        self,
        rows: &mut [u64],
        population: u8,
        id: Replica,
    ) -> Result<RespondersConf, Refusal>
        ensures { Edits (IntoFiltered id.0) population self rows.old result rows.new }
    {
        self.check_ready(rows.len(), population)?;
        if id.0 >= population {
            return Err(Refusal::NoSuchReplica);
        }
        let mut map = RangeMapMut {
            rows,
            count: self.count,
        };
        map.filter(id);
        Ok(RespondersConf {
            leader: leader_without(self.leader, id),
            count: map.count,
            default: bitmap::set(self.default, id, false),
        })
    }

    // The default stays.
    #[tactic(auto, using(crate::proofs::Laws::unready, crate::proofs::Laws::reset))]
    pub fn reset_full(self, rows: &[u64], population: u8) -> Result<RespondersConf, Refusal>
        ensures { Edits ResetFull population self rows.now result rows.now }
    {
        self.check_ready(rows.len(), population)?;
        Ok(RespondersConf {
            leader: None,
            count: 0,
            ..self
        })
    }

    #[tactic(auto, using(crate::proofs::Laws::lookup_2, crate::proofs::Laws::lookup_none, crate::proofs::Laws::lookup_mask))]
    pub fn get_responders_by_key(self, rows: &[u64], key: &[u8]) -> Result<Option<u64>, Refusal>
        ensures { result ≡ lookup self rows.now key.now }
    {
        if !is_whole(rows.len(), self.count) {
            return Err(Refusal::NotReady);
        }
        let Some(n) = keys::key_to_inty(key) else {
            return Ok(None);
        };
        let map = RangeMap {
            rows,
            count: self.count,
        };
        Ok(Some(map.get(self.default, n)))
    }
}

// bitmap.rs: a set of replicas is a 64-bit mask, by value. No struct of its own: masks are words of the calls from C
// and of a roster's rows.
#![tactic(auto)]

ghost use Rattle.std.specs.Prelude.{◌≡◌};
ghost use Rattle.bitmap.specs.Bitmap.{get, set_to, count, is_superset, fits};

use ids::Replica;

// False at or above 64.
#[tactic(auto, using(crate::proofs::Laws::get_out), unfolding(crate::specs::Bitmap::get))]
pub fn get(map: u64, idx: Replica) -> bool
    ensures { result ≡ get map idx.0 }
{
    idx.0 < Replica::LIMIT && (map >> idx.0) % 2 == 1
}

// Nothing changes at or above 64.
#[tactic(auto, using(crate::proofs::Laws::set_out, crate::proofs::Laws::set_true, crate::proofs::Laws::set_false))]
pub fn set(map: u64, idx: Replica, flag: bool) -> u64
    ensures { result ≡ set_to map idx.0 flag }
{
    if Replica::LIMIT <= idx.0 {
        return map;
    }
    let bit = 1u64 << idx.0;
    if flag { map | bit } else { map & !bit }
}

#[tactic(auto, using(crate::proofs::Laws::count_ones))]
pub fn count(map: u64) -> u64
    ensures { result ≡ count map }
{
    u64::from(map.count_ones())
}

// Every flag set in other is also set in map.
#[tactic(auto, using(crate::proofs::Laws::superset_and))]
pub fn is_superset(map: u64, other: u64) -> bool
    ensures { result ≡ is_superset map other }
{
    map & other == other
}

// No bit at or above the population.
#[tactic(auto, using(crate::proofs::Laws::fits_all, crate::proofs::Laws::fits_shift))]
pub fn fits(map: u64, population: u8) -> bool
    ensures { result ≡ fits map population }
{
    Replica::LIMIT <= population || map < 1u64 << population
}

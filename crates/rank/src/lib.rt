// The k-th smallest of a list of bars, equal ones each counted. A search by value: it goes over the list once for each
// halving of the distance between the smallest and the largest bar.
#![tactic(auto)]

ghost use Rattle.std.specs.Prelude.{◌≡◌, ℕ, ◌-◌, ◌≤◌, ◌<◌, length, get_or};
ghost use Rattle.rank.specs.Sort.{sort, count_le};

// How many elements are at most v. Tried: `filter(..).count()` takes 75 % longer over 64 elements.
fn count_le(b: &[u64], v: u64) -> usize
    ensures { result ≡ count_le v b.now }
{
    let mut n = 0;
    for x in b {
        if *x <= v {
            n += 1;
        }
    }
    n
}

// No element is below it.
fn smallest(b: &[u64]) -> u64
    ensures { (k : ℕ) → k < length b.now → result ≤ get_or b.now k 0 }
{
    b.iter().copied().min().unwrap_or(u64::MAX)
}

// No element is above it but the last number, which goes as 0 here. To filter it out takes 30 % more instructions over
// 64 elements.
fn largest(b: &[u64]) -> u64
    ensures { (k : ℕ) → k < length b.now → get_or b.now k 0 < 18446744073709551615 → get_or b.now k 0 ≤ result }
{
    b.iter()
        .map(|x| if *x < u64::MAX { *x } else { 0 })
        .max()
        .unwrap_or(0)
}

// The k-th smallest, which is between the two. The library's searches go over a list in order, not over values.
fn search(b: &[u64], k: usize, from: u64, to: u64) -> u64
    requires { (0 < k) × (k ≤ length b.now) × (from ≤ get_or (sort b.now) (k - 1) 0) × (get_or (sort b.now) (k - 1) 0 ≤ to) }
    ensures { result ≡ get_or (sort b.now) (k - 1) 0 }
{
    let mut lo = from;
    let mut hi = to;
    while lo < hi {
        let mid = lo + (hi - lo) / 2;
        if k <= count_le(b, mid) {
            hi = mid;
        } else {
            lo = mid + 1;
        }
    }
    lo
}

// k is a rank, no length of the list. `select_nth_unstable` was tried: it proves, and takes a seventh of the
// instructions where a guard is far from the others, but it takes the bars by `&mut`, and this asks no more of callers.
pub fn kth(b: &[u64], k: usize) -> u64
    requires { (0 < k) × (k ≤ length b.now) }
    ensures { result ≡ get_or (sort b.now) (k - 1) 0 }
{
    let to = largest(b);
    if count_le(b, to) < k {
        return u64::MAX;
    }
    search(b, k, smallest(b), to)
}

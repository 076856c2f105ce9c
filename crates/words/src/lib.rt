// Laws on lists of words that every crate over a lent buffer shares are in specs/.
#![tactic(auto)]

ghost use Rattle.std.specs.Prelude.{◌≡◌, ◌≤◌, length, take};
ghost use Rattle.words.specs.Writes.{writes};

// The first n words: one number for both slices. Word by word: `copy_from_slice` of two lent parts becomes a call of
// `memmove`, which the archive for C would need from outside.
pub fn copy_words(to: &mut [u64], from: &[u64], n: usize)
    requires { (n ≤ length from.now) × (n ≤ length to.old) }
    ensures { to.new ≡ writes to.old 0 (take n from.now) }
{
    for i in 0..n {
        to[i] = from[i];
    }
}

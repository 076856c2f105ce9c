// A key of at most 48 bytes as seven words: its length, and its bytes, eight to a word, 0 past its end.
#![tactic(auto)]

ghost use Rattle.std.specs.Prelude.{◌≡◌, true, ◌+◌, ◌<◌, ◌≤◌, ◌%◌, length, get_or, take, option_map};
ghost use Rattle.words.specs.Writes.{writes};
ghost use Rattle.keys.specs.Same.{same_bytes};
ghost use Rattle.key_words.specs.Key.{key_at, words_of, pack_of, le_word, le_bytes, bytes_of, at_most_48, Unpacks, all_bytes, is_packed};

use std::array;

// Words by name, not an array: a key is passed by value and compared word by word.
#[derive(Clone, Copy, PartialEq, Eq)]
pub struct Key {
    pub len: u64,
    pub w0: u64,
    pub w1: u64,
    pub w2: u64,
    pub w3: u64,
    pub w4: u64,
    pub w5: u64,
}

// Whether two keys are the same bytes: the derived equality of the words, said of what they stand for.
pub fn same(a: Key, b: Key) -> bool
    ensures { result ≡ same_bytes (bytes_of a) (bytes_of b) }
{
    a == b
}

pub fn get_key(s: &[u64], at: usize) -> Key
    requires { at + 7 ≤ length s.now }
    ensures { result ≡ key_at s.now at }
{
    Key {
        len: s[at],
        w0: s[at + 1],
        w1: s[at + 2],
        w2: s[at + 3],
        w3: s[at + 4],
        w4: s[at + 5],
        w5: s[at + 6],
    }
}

// Whether the key that stands at `at` is these bytes. The length and the first word come first, each loaded by itself:
// most keys of a table differ there, and their other words are not read.
pub fn is_at(s: &[u64], at: usize, key: Key) -> bool
    requires { at + 7 ≤ length s.now }
    ensures { result ≡ same_bytes (bytes_of (key_at s.now at)) (bytes_of key) }
{
    s[at] == key.len && s[at + 1] == key.w0 && same(get_key(s, at), key)
}

pub fn put_key(s: &mut [u64], at: usize, k: Key)
    requires { at + 7 ≤ length s.old }
    ensures { s.new ≡ writes s.old at (words_of k) }
{
    s[at..at + 7].copy_from_slice(&[k.len, k.w0, k.w1, k.w2, k.w3, k.w4, k.w5]);
}

// The byte at i, and 0 past the end.
fn byte_or_0(k: &[u8], i: usize) -> u8
    ensures { result ≡ get_or k.now i 0 }
{
    k.get(i).copied().unwrap_or(0)
}

// Eight bytes from `at` on, as a word.
fn word_of(s: &[u8], at: usize) -> u64
    requires { at < 48 }
    ensures { result ≡ le_word 8 s.now at }
{
    u64::from_le_bytes(array::from_fn(|i| byte_or_0(s, at + i)))
}

#[tactic(auto, using(crate::proofs::Laws::few_packed))]
fn key_of(k: &[u8]) -> Key
    ensures { result ≡ pack_of k.now }
{
    let few = Key {
        len: k.len() as u64,
        w0: word_of(k, 0),
        w1: 0,
        w2: 0,
        w3: 0,
        w4: 0,
        w5: 0,
    };
    // Most keys have at most eight bytes.
    if k.len() <= 8 {
        return few;
    }
    Key {
        w1: word_of(k, 8),
        w2: word_of(k, 16),
        w3: word_of(k, 24),
        w4: word_of(k, 32),
        w5: word_of(k, 40),
        ..few
    }
}

// The key of at most 48 bytes.
pub fn pack_short(bytes: &[u8]) -> Key
    requires { length bytes.now ≤ 48 }
    ensures { bytes_of result ≡ bytes.now }
{
    key_of(bytes)
}

pub fn pack(bytes: &[u8]) -> Option<Key>
    ensures { option_map bytes_of result ≡ at_most_48 bytes.now }
{
    if keys::KEY_BYTES < bytes.len() {
        return None;
    }
    Some(pack_short(bytes))
}

// The eight bytes of a word, the lowest first, by the library's conversion and copy.
fn put_word(out: &mut [u8], at: usize, v: u64)
    requires { at + 8 ≤ length out.old }
    ensures { out.new ≡ writes out.old at (le_bytes 8 v) }
{
    out[at..at + 8].copy_from_slice(&v.to_le_bytes());
}

fn put_words(out: &mut [u8], k: Key)
    requires { 48 ≤ length out.old }
    ensures { out.new ≡ writes out.old 0 (all_bytes k) }
{
    put_word(out, 0, k.w0);
    put_word(out, 8, k.w1);
    put_word(out, 16, k.w2);
    put_word(out, 24, k.w3);
    put_word(out, 32, k.w4);
    put_word(out, 40, k.w5);
}

// At most eight bytes, as most keys are, and nothing past them: such words are some bytes'.
fn is_short(k: Key) -> bool
    ensures { result ≡ true → is_packed k ≡ true }
{
    let few = Key {
        w1: 0,
        w2: 0,
        w3: 0,
        w4: 0,
        w5: 0,
        ..k
    };
    k == few
        && if k.len < 8 {
            k.w0 >> (8 * k.len) == 0
        } else {
            k.len == 8
        }
}

// The words' bytes stand in out: whether they pack to these words again.
fn packs_back(k: Key, out: &[u8]) -> bool
    requires { (48 ≤ length out.now) × (take 48 out.now ≡ all_bytes k) }
    ensures { result ≡ is_packed k }
{
    k.len <= keys::KEY_BYTES as u64 && key_of(&out[..k.len as usize]) == k
}

// Whether the words are some bytes'.
fn is_packed(k: Key, out: &[u8]) -> bool
    requires { (48 ≤ length out.now) × (take 48 out.now ≡ all_bytes k) }
    ensures { result ≡ is_packed k }
{
    is_short(k) || packs_back(k, out)
}

// The bytes of a key, at the front of the first 48 of out.
pub fn unpack(k: Key, out: &mut [u8]) -> Option<usize>
    requires { 48 ≤ length out.old }
    ensures { Unpacks k out.old out.new result }
{
    put_words(out, k);
    is_packed(k, out).then_some(k.len as usize)
}

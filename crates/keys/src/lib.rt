// `key_to_inty` of keyrange.rs: the number that a key reads as.
#![tactic(auto)]

ghost use Rattle.std.specs.Prelude.{◌≡◌, option_map};
ghost use Rattle.inty.specs.Value.{value_of};
ghost use Rattle.keys.specs.Read.{strip, sign, number, overflow, read_key};

use inty::Inty;

// The bytes of a key at most, wherever one is kept or stands in a call.
pub const KEY_BYTES: usize = 48;

// The key after its leading k and K. Slices have no `trim_start_matches`, and to find the first other byte and cut
// there is no plainer.
fn skip_ks(key: &[u8]) -> &[u8]
    ensures { result.now ≡ strip key.now }
{
    let mut rest = key;
    while let [b'k' | b'K', next @ ..] = rest {
        rest = next;
    }
    rest
}

// The digits, after a `+`.
fn skip_sign(key: &[u8]) -> &[u8]
    ensures { result.now ≡ sign key.now }
{
    match key {
        [b'+', rest @ ..] => rest,
        _ => key,
    }
}

// The number of the digits after those that made `acc`.
fn read_long(digits: &[u8], acc: u64) -> Option<Inty>
    ensures { option_map value_of result ≡ overflow (number acc digits.now) }
{
    let mut x = Inty { hi: 0, lo: acc };
    for c in digits {
        if !c.is_ascii_digit() {
            return None;
        }
        x = x.ten_step(*c - b'0')?;
    }
    Some(x)
}

// One word holds 19 digits and often 20, so most keys end here.
fn read_digits(digits: &[u8]) -> Option<Inty>
    ensures { option_map value_of result ≡ overflow (number 0 digits.now) }
{
    let mut acc: u64 = 0;
    for (i, c) in digits.iter().enumerate() {
        if acc > (u64::MAX - 9) / 10 {
            return read_long(&digits[i..], acc);
        }
        if !c.is_ascii_digit() {
            return None;
        }
        acc = 10 * acc + u64::from(*c - b'0');
    }
    Some(Inty { hi: 0, lo: acc })
}

pub fn key_to_inty(key: &[u8]) -> Option<Inty>
    ensures { option_map value_of result ≡ read_key key.now }
{
    let digits = skip_sign(skip_ks(key));
    if digits.is_empty() {
        return None;
    }
    read_digits(digits)
}

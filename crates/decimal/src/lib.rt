// Numbers in decimal, most significant digit first; by the recursion that document 01 asks for, and no `Display`.
// Output and place come apart: the writer that has both, in crate text, is made over this.
#![tactic(auto)]

ghost use Rattle.std.specs.Prelude.{◌≡◌, ◌+◌, ◌<◌, ◌≤◌, length};
ghost use Rattle.words.specs.Writes.{writes};
ghost use Rattle.inty.specs.Value.{value_of};
ghost use Rattle.decimal.specs.Digits.{decimal};
ghost use Rattle.decimal.specs.Placed.{placed};

use inty::{Inty, Tenth};

fn digit_count(x: Inty) -> usize
    ensures { result ≡ length (decimal (value_of x)) }
{
    let rest = x.div_ten().quotient;
    if rest.is_zero() {
        1
    } else {
        digit_count(rest) + 1
    }
}

// Writes x to the start of out, and returns how many digits it has.
fn put(out: &mut [u8], x: Inty) -> usize
    requires { length (decimal (value_of x)) ≤ length out.old }
    ensures { (result ≡ length (decimal (value_of x))) × (out.new ≡ writes out.old 0 (decimal (value_of x))) }
{
    let Tenth {
        quotient,
        remainder,
    } = x.div_ten();
    let last = if quotient.is_zero() {
        0
    } else {
        put(out, quotient)
    };
    out[last] = b'0' + remainder as u8;
    last + 1
}

pub fn write(out: &mut [u8], at: usize, x: Inty) -> Option<usize>
    ensures { record { answer = result; bytes = out.new } ≡ placed out.old at (decimal (value_of x)) }
{
    let room = out.len().checked_sub(at)?;
    if room < digit_count(x) {
        return None;
    }
    Some(at + put(&mut out[at..], x))
}

// `write` for the other width. One generic over `Into<Inty>` would have to say which number the conversion gives, and
// each caller to work it out. Crate text puts such a number two digits a step, without this.
pub fn write_u64(out: &mut [u8], at: usize, n: u64) -> Option<usize>
    ensures { record { answer = result; bytes = out.new } ≡ placed out.old at (decimal n) }
{
    write(out, at, Inty { hi: 0, lo: n })
}

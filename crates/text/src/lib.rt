// Text in lent bytes: numbers, bytes, and fields that a comma begins. No `write!`: it goes to a `String`, and there
// is no heap, or may fail, where each method here asks for its room.
#![tactic(auto)]

ghost use Rattle.std.specs.Prelude.{◌≡◌, [], ◌∷◌, ◌+◌, ◌/◌, ◌%◌, ◌<◌, ◌≤◌, length};
ghost use Rattle.decimal.specs.Digits.{decimal};
ghost use Rattle.inty.specs.Value.{value_of};
ghost use Rattle.text.specs.Puts.{Puts};

use inty::Inty;

// A writer into lent bytes, and where its text ends.
#[derive(Drop)]
pub struct TextMut<'a> {
    pub out: &'a mut [u8],
    pub at: usize,
}

impl<'a> TextMut<'a> {
    // ---- numbers

    fn put_pair(&mut self, pair: u64)
        requires { (self.old.at + 2 ≤ length self.old.out.now) × (pair < 100) }
        ensures { Puts self.old ((48 + pair / 10) ∷ (48 + pair % 10) ∷ []) 2 self.new }
    {
        self.out[self.at] = b'0' + (pair / 10) as u8;
        self.out[self.at + 1] = b'0' + (pair % 10) as u8;
        self.at += 2;
    }

    // Two digits a step: one a step divides twice as often, and such numbers are most of what a line writes.
    pub fn put_u64(&mut self, n: u64)
        requires { self.old.at + 20 ≤ length self.old.out.now }
        ensures { Puts self.old (decimal n) 20 self.new }
    {
        if n < 10 {
            return self.put_byte(b'0' + n as u8);
        }
        if n < 100 {
            return self.put_pair(n);
        }
        self.put_u64(n / 100);
        self.put_pair(n % 100);
    }

    // Room for the digits is enough, as an answer line of crate key_lines may have no more.
    pub fn put_wide(&mut self, x: Inty)
        requires { self.old.at + length (decimal (value_of x)) ≤ length self.old.out.now }
        ensures { Puts self.old (decimal (value_of x)) 39 self.new }
    {
        self.at = decimal::write(self.out, self.at, x).unwrap();
    }

    // ---- bytes

    pub fn put_byte(&mut self, b: u8)
        requires { self.old.at < length self.old.out.now }
        ensures { Puts self.old (b ∷ []) 1 self.new }
    {
        self.out[self.at] = b;
        self.at += 1;
    }

    // The library's copy; the position moves on with it.
    pub fn put_bytes(&mut self, src: &[u8])
        requires { self.old.at + length src.now ≤ length self.old.out.now }
        ensures { Puts self.old src.now (length src.now) self.new }
    {
        let end = self.at + src.len();
        self.out[self.at..end].copy_from_slice(src);
        self.at = end;
    }

    // ---- fields: a comma and a number

    pub fn put_field(&mut self, n: u64)
        requires { self.old.at + 21 ≤ length self.old.out.now }
        ensures { Puts self.old (44 ∷ decimal n) 21 self.new }
    {
        self.put_byte(b',');
        self.put_u64(n);
    }

    pub fn put_wide_field(&mut self, x: Inty)
        requires { self.old.at + 40 ≤ length self.old.out.now }
        ensures { Puts self.old (44 ∷ decimal (value_of x)) 40 self.new }
    {
        self.put_byte(b',');
        self.put_wide(x);
    }
}

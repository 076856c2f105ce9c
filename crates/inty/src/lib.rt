// `IntyKey` of keyrange.rs is a `u128`: here two 64-bit halves.
#![tactic(auto)]

ghost use Rattle.std.specs.Prelude.{◌≡◌, ℕ, ◌+◌, ◌-◌, ◌*◌, ◌/◌, ◌%◌, ltb, eqb, option_map};
ghost use Rattle.inty.specs.Value.{value_of, bounded};

// The upper half comes first, so that the derived order is that of the numbers.
#[derive(Clone, Copy, PartialEq, Eq, PartialOrd, Ord)]
pub struct Inty {
    pub hi: u64,
    pub lo: u64,
}

#[derive(Clone, Copy)]
pub struct Tenth {
    pub quotient: Inty,
    pub remainder: u64,
}

// The derived order and equality are of halves; `lt` and `eq` say them of the numbers, as callers' clauses do.
pub fn lt(a: Inty, b: Inty) -> bool
    ensures { result ≡ ltb (value_of a) (value_of b) }
{
    a < b
}

pub fn eq(a: Inty, b: Inty) -> bool
    ensures { result ≡ eqb (value_of a) (value_of b) }
{
    a == b
}

impl Inty {
    pub const ZERO: Inty = Inty { hi: 0, lo: 0 };

    pub const MAX: Inty = Inty {
        hi: u64::MAX,
        lo: u64::MAX,
    };

    // By the derived equality, said of the number.
    pub fn is_zero(self) -> bool
        ensures { result ≡ eqb (value_of self) 0 }
    {
        self == Inty::ZERO
    }

    // `checked_add(1)`.
    pub fn succ(self) -> Option<Inty>
        ensures { option_map value_of result ≡ bounded (value_of self + 1) }
    {
        if self.lo < u64::MAX {
            return Some(Inty {
                lo: self.lo + 1,
                ..self
            });
        }
        let hi = self.hi.checked_add(1)?;
        Some(Inty { hi, lo: 0 })
    }

    // `saturating_sub(1)`.
    pub fn pred(self) -> Inty
        ensures { value_of result ≡ value_of self - 1 }
    {
        if self.lo > 0 {
            return Inty {
                lo: self.lo - 1,
                ..self
            };
        }
        if self.hi > 0 {
            return Inty {
                hi: self.hi - 1,
                lo: u64::MAX,
            };
        }
        self
    }

    // Whether b is the number after this one: never for the last number, which has none.
    pub fn is_next(self, b: Inty) -> bool
        ensures { result ≡ eqb (value_of self + 1) (value_of b) }
    {
        !b.is_zero() && self == b.pred()
    }

    // 10 * self + d.
    pub fn ten_step(self, d: u8) -> Option<Inty>
        ensures { option_map value_of result ≡ bounded (10 * value_of self + d) }
    {
        let low = (self.lo % 0x1_0000_0000) * 10 + u64::from(d);
        let mid = (self.lo / 0x1_0000_0000) * 10 + low / 0x1_0000_0000;
        let carry = mid / 0x1_0000_0000;
        if self.hi > (u64::MAX - carry) / 10 {
            return None;
        }
        let hi = self.hi * 10 + carry;
        let lo = (mid % 0x1_0000_0000) * 0x1_0000_0000 + low % 0x1_0000_0000;
        Some(Inty { hi, lo })
    }

    pub fn div_ten(self) -> Tenth
        ensures { (value_of result.quotient ≡ value_of self / 10) × (result.remainder ≡ value_of self % 10) }
    {
        if self.hi == 0 {
            return Tenth {
                quotient: Inty {
                    hi: 0,
                    lo: self.lo / 10,
                },
                remainder: self.lo % 10,
            };
        }
        let hi = self.hi / 10;
        let mid = (self.hi % 10) * 0x1_0000_0000 + self.lo / 0x1_0000_0000;
        let low = (mid % 10) * 0x1_0000_0000 + self.lo % 0x1_0000_0000;
        let lo = (mid / 10) * 0x1_0000_0000 + low / 10;
        Tenth {
            quotient: Inty { hi, lo },
            remainder: low % 10,
        }
    }
}

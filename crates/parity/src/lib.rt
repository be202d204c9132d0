// A parity: a set of columns 0 to 127, in two words. Methods and operators take it by value and hand a new one back.
#![tactic(auto)]

ghost use Rattle.std.specs.Prelude.{◌≡◌, ◌&&◌, ◌||◌, cond, map, [], ◌∷◌, ℕ, ◌-◌, ◌≤◌, ◌<◌, ◌^◌, eqb, ◌==◌};
ghost use Rattle.std.proofs.Common.{rules};
ghost use Rattle.std.specs.Cmp.Rules.{comparing};
ghost use Rattle.rules.specs.Bit.{bit, xor};
ghost use Rattle.parity.specs.Columns.{clear_lowest, LowestIs, HighestIs};
ghost use Rattle.parity.specs.View.{val, picked};

use std::ops::{BitAnd, BitOr, BitXor};

// Stays: two words and not a u128, as they stand in the rooms that a caller in another language lends.
#[derive(Clone, Copy)]
pub struct Parity {
    pub lo: u64,
    pub hi: u64,
}

impl Parity {
    pub fn zero() -> Parity
        ensures { val result ≡ 0 }
    {
        Parity { lo: 0, hi: 0 }
    }

    // The parity of one column.
    pub fn single(column: u32) -> Parity
        requires { column < 128 }
        ensures { val result ≡ 2 ^ column }
    {
        if column < 64 {
            Parity {
                lo: 1 << column,
                hi: 0,
            }
        } else {
            Parity {
                lo: 0,
                hi: 1 << (column - 64),
            }
        }
    }

    // The columns 0 to n - 1. No shift is by 64 or more.
    pub fn all(n: u32) -> Parity
        requires { n ≤ 128 }
        ensures { val result ≡ 2 ^ n - 1 }
    {
        if n < 64 {
            Parity {
                lo: (1 << n) - 1,
                hi: 0,
            }
        } else if n < 128 {
            Parity {
                lo: u64::MAX,
                hi: (1 << (n - 64)) - 1,
            }
        } else {
            Parity {
                lo: u64::MAX,
                hi: u64::MAX,
            }
        }
    }

    // The parity itself, or none of its columns. A factor stands for the choice, so that a loop has no branch on data.
    pub fn kept(self, keep: bool) -> Parity
        ensures { val result ≡ cond keep (val self) 0 }
    {
        let factor = keep as u64;
        Parity {
            lo: self.lo * factor,
            hi: self.hi * factor,
        }
    }

    // None and the parity, side by side, for `pick`.
    pub fn table(self) -> [Parity; 2]
        ensures { map val result ≡ 0 ∷ val self ∷ [] }
    {
        [Parity::zero(), self]
    }

    // The parity of a table where the digit is 1, none of its columns where it is 0: taken by its place. A compiler makes a branch of a
    // product or a mask in a loop, and never of a load.
    pub fn pick(t: &[Parity; 2], digit: u64) -> Parity
        requires { digit ≤ 1 }
        ensures { val result ≡ picked t.now digit }
    {
        t[digit as usize]
    }

    pub fn is_zero(self) -> bool
        ensures { result ≡ eqb (val self) 0 }
    {
        (self.lo == 0) & (self.hi == 0)
    }

    // Whether a column is in the parity.
    pub fn has(self, column: u32) -> bool
        requires { column < 128 }
        ensures { result ≡ bit (val self) column }
    {
        if column < 64 {
            (self.lo >> column) % 2 == 1
        } else {
            (self.hi >> (column - 64)) % 2 == 1
        }
    }

    // The same as a number, for a loop that counts or picks by it.
    pub fn digit(self, column: u32) -> u64
        requires { column < 128 }
        ensures { (result ≡ cond (bit (val self) column) 1 0) × (result ≤ 1) }
    {
        if column < 64 {
            (self.lo >> column) % 2
        } else {
            (self.hi >> (column - 64)) % 2
        }
    }

    // The lowest column, or 128 where there is none.
    // Stays: a number for none too, since callers ask `is_zero` first and loops over columns test once.
    pub fn lowest(self) -> u32
        ensures { LowestIs (val self) result }
    {
        if self.lo == 0 {
            64 + u64::trailing_zeros(self.hi)
        } else {
            u64::trailing_zeros(self.lo)
        }
    }

    // The highest column, or 0 where there is none.
    pub fn highest(self) -> u32
        ensures { HighestIs (val self) result }
    {
        if self.hi != 0 {
            127 - u64::leading_zeros(self.hi)
        } else if self.lo != 0 {
            63 - u64::leading_zeros(self.lo)
        } else {
            0
        }
    }

    // The parity without its lowest column.
    pub fn clear_lowest(self) -> Parity
        ensures { val result ≡ clear_lowest (val self) }
    {
        if self.lo != 0 {
            Parity {
                lo: self.lo & (self.lo - 1),
                hi: self.hi,
            }
        } else if self.hi != 0 {
            Parity {
                lo: 0,
                hi: self.hi & (self.hi - 1),
            }
        } else {
            self
        }
    }
}

// Stays: by hand, since a derived `==` speaks of the words, and every caller of their number.
impl PartialEq for Parity {
    ghost eq = { λ a b. val a == val b };

    ghost laws = { Prim.search (comparing, rules) };

    fn eq(&self, other: &Parity) -> bool {
        (self.lo == other.lo) & (self.hi == other.hi)
    }
}

impl Eq for Parity {
    ghost laws = { Prim.search (comparing, rules) };
}

// The columns that are in one of the two and not in both.
impl BitXor for Parity {
    type Output = Parity;

    ghost bitxor_gives = { λ a b r. val r ≡ xor (val a) (val b) };

    fn bitxor(self, other: Parity) -> Parity {
        Parity {
            lo: self.lo ^ other.lo,
            hi: self.hi ^ other.hi,
        }
    }
}

// The columns that are in both.
impl BitAnd for Parity {
    type Output = Parity;

    ghost bitand_gives = { λ a b r. (i : ℕ) → bit (val r) i ≡ (bit (val a) i && bit (val b) i) };

    fn bitand(self, other: Parity) -> Parity {
        Parity {
            lo: self.lo & other.lo,
            hi: self.hi & other.hi,
        }
    }
}

// The columns that are in one of the two or in both.
impl BitOr for Parity {
    type Output = Parity;

    ghost bitor_gives = { λ a b r. (i : ℕ) → bit (val r) i ≡ (bit (val a) i || bit (val b) i) };

    fn bitor(self, other: Parity) -> Parity {
        Parity {
            lo: self.lo | other.lo,
            hi: self.hi | other.hi,
        }
    }
}

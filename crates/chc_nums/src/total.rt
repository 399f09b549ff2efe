// Exact sums of numbers of 128 bits.

ghost use Rattle.std.specs.Prelude.{◌≡◌, ◌≤ℤ◌, ◌+ℤ◌, ◌-ℤ◌, ◌*ℤ◌, ◌-◌, ◌^◌, neg_ℤ, pos};
ghost use Rattle.std.specs.Ordering.{int_eq};
ghost use Rattle.chc_nums.specs.Wide.{in_128};
ghost use Rattle.chc_nums.specs.Totals.{half, IsWithin};

use crate::wide::{product, sum};
use std::marker::Model;

// 2^64
const HALF: i128 = 0x1_0000_0000_0000_0000;

/// A sum of numbers of 128 bits: so many times 2^64, and a number below 2^64.
#[derive(Debug, Drop)]
pub struct Total {
    high: i128,
    low: i128,
}

impl Model for Total {
    ghost use lib.IntN.{ℤ};
    ghost use Rattle.std.specs.Coded.{coded_ℤ};

    ghost Value = { ℤ };

    ghost coded = { coded_ℤ };

    ghost use Rattle.chc_nums.specs.Totals.{total_of, IsTotal};

    ghost view = { total_of };

    ghost invariant = { IsTotal };
}

// So many times 2^64 and another number.
#[tactic(auto, using(crate::proofs::Halves::halves))]
fn placed(high: i128, low: i128) -> Total
    requires high { (neg_ℤ (pos (2 ^ 127 - 2 ^ 62)) ≤ℤ high) × (high ≤ℤ pos (2 ^ 127 - 2 ^ 62)) }
    requires low { (neg_ℤ (pos (2 ^ 66)) ≤ℤ low) × (low ≤ℤ pos (2 ^ 66)) }
    ensures { result ≡ (high *ℤ half) +ℤ low }
{
    Total {
        high: high + low.div_euclid(HALF),
        low: low.rem_euclid(HALF),
    }
}

impl Total {
    /// A number of 128 bits as a sum.
    #[tactic(auto, using(crate::proofs::Halves::halves))]
    pub fn new(n: i128) -> Total
        ensures { result ≡ n }
    {
        Total {
            high: n.div_euclid(HALF),
            low: n.rem_euclid(HALF),
        }
    }

    /// One that is equal to this.
    pub fn copy(&self) -> Total
        ensures { result ≡ self.now }
    {
        Total {
            high: self.high,
            low: self.low,
        }
    }

    /// A number more, on a sum of at most 2^64 - 2 numbers.
    #[tactic(auto, using(crate::proofs::Halves::halves))]
    pub fn plus(&self, n: i128) -> Total
        requires { IsWithin (2 ^ 64 - 2) self.now }
        ensures { result ≡ self.now +ℤ n }
    {
        placed(
            self.high + n.div_euclid(HALF),
            self.low + n.rem_euclid(HALF),
        )
    }

    /// A number less, of a sum of at most 2^64 - 2 numbers.
    #[tactic(auto, using(crate::proofs::Halves::halves))]
    pub fn minus(&self, n: i128) -> Total
        requires { IsWithin (2 ^ 64 - 2) self.now }
        ensures { result ≡ self.now -ℤ n }
    {
        placed(
            self.high - n.div_euclid(HALF),
            self.low - n.rem_euclid(HALF),
        )
    }

    /// The number with the other sign, of a sum of at most 2^64 - 1 numbers.
    #[tactic(auto, using(crate::proofs::Halves::halves))]
    pub fn opposite(&self) -> Total
        requires { IsWithin (2 ^ 64 - 1) self.now }
        ensures { result ≡ neg_ℤ self.now }
    {
        placed(-self.high, -self.low)
    }

    /// Whether it is 0.
    #[tactic(auto, using(crate::proofs::Halves::halves))]
    pub fn is_zero(&self) -> bool
        ensures { result ≡ int_eq self.now (pos 0) }
    {
        self.high == 0 && self.low == 0
    }

    /// The number, where it has 128 bits.
    #[tactic(auto, using(crate::proofs::Halves::halves))]
    pub fn narrow(&self) -> Option<i128>
        ensures { result ≡ in_128 self.now }
    {
        sum(product(self.high, HALF)?, self.low)
    }
}

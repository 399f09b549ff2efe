// Numbers of a run: divisors and quotients.

ghost use Rattle.std.specs.Prelude.{◌≡◌, pos, ◌*ℤ◌, int_div, unsigned_abs};
ghost use Rattle.chc_nums.specs.Wide.{in_128};
ghost use Rattle.chc_simplex.specs.Divisors.{gcd};
ghost use Rattle.chc_simplex.specs.Endings.{multiple, lowest};

use chc_nums::{product, sum};

/// The quotient, truncated towards zero and 0 by 0, or none where it leaves 128 bits.
#[tactic(auto, using(crate::proofs::Steps::quotients))]
pub fn quotient(a: i128, b: i128) -> Option<i128>
    ensures { result ≡ in_128 (int_div a b) }
{
    // Most divisors are 1, and a division of 128 bits is slow.
    if b == 1 {
        sum(a, 0)
    } else if b == 0 {
        Some(0)
    } else {
        chc_nums::quotient(a, b)
    }
}

/// A number of no sign as one with a sign, or none where it leaves 128 bits.
pub fn signed(n: u128) -> Option<i128>
    ensures { result ≡ in_128 (pos n) }
{
    i128::try_from(n).ok()
}

/// The greatest common divisor.
#[tactic(auto, using(crate::proofs::Steps::divisors))]
pub fn gcd(a: u128, b: u128) -> u128
    ensures { result ≡ gcd a b }
{
    chc_nums::gcd(a, b)
}

/// The greatest common divisor of two numbers with a sign, or none where it leaves 128 bits.
pub fn common_divisor(a: i128, b: i128) -> Option<i128>
    ensures { result ≡ in_128 (pos (gcd (unsigned_abs a) (unsigned_abs b))) }
{
    signed(gcd(a.unsigned_abs(), b.unsigned_abs()))
}

/// The least common multiple, or none where it leaves 128 bits.
pub fn multiple(a: i128, b: i128) -> Option<i128>
    ensures { result ≡ multiple a b }
{
    let divisor = common_divisor(a, b)?;
    let part = quotient(a, divisor)?;
    product(part, b)
}

/// Numerator and denominator in lowest terms.
pub fn lowest(numerator: i128, denominator: i128) -> Option<(i128, i128)>
    ensures { result ≡ lowest numerator denominator }
{
    let divisor = common_divisor(numerator, denominator)?;
    let above = quotient(numerator, divisor)?;
    let below = quotient(denominator, divisor)?;
    Some((above, below))
}

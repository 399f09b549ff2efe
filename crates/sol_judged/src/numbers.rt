// Numbers of literal expressions.

ghost use Rattle.std.specs.Prelude.{◌≡◌, ◌<◌, ◌+ℤ◌, ◌-ℤ◌, ◌*ℤ◌, neg_ℤ, pos, None, if◌then◌else◌, int_div, unsigned_abs};
ghost use Rattle.std.specs.Ordering.{int_eq};
ghost use Rattle.chc_nums.specs.Values.{with_value};
ghost use Rattle.chc_nums.specs.Wide.{divided};
ghost use Rattle.sol_judged.specs.LiteralNumbers.{whole, written, exact_quotient, exact_remainder, exact_power, power_of};

use chc_nums::{difference, opposite, product, quotient, remainder, sum};
use sol_tree::NumberUnit;

// 2^127
const TOO_LARGE: u128 = 0x8000_0000_0000_0000_0000_0000_0000_0000;

// A number that a literal may have.
#[tactic(auto, unfolding(crate::specs::LiteralNumbers::whole))]
fn whole(z: i128) -> Option<i128>
    ensures { result ≡ whole z }
{
    if z.unsigned_abs() < TOO_LARGE {
        Some(z)
    } else {
        None
    }
}

// A number that a literal may have, of one that has 128 bits or none.
fn whole_of(z: Option<i128>) -> Option<i128>
    ensures { result ≡ with_value z whole }
{
    match z {
        None => None,
        Some(z) => whole(z),
    }
}

/// The sum, where it is a number of a literal.
#[tactic(auto, using(crate::proofs::Wholes::wholes))]
pub fn whole_sum(a: i128, b: i128) -> Option<i128>
    ensures { result ≡ whole (a +ℤ b) }
{
    whole_of(sum(a, b))
}

/// The difference, where it is a number of a literal.
#[tactic(auto, using(crate::proofs::Wholes::wholes))]
pub fn whole_difference(a: i128, b: i128) -> Option<i128>
    ensures { result ≡ whole (a -ℤ b) }
{
    whole_of(difference(a, b))
}

/// The product, where it is a number of a literal.
#[tactic(auto, using(crate::proofs::Wholes::wholes))]
pub fn whole_product(a: i128, b: i128) -> Option<i128>
    ensures { result ≡ whole (a *ℤ b) }
{
    whole_of(product(a, b))
}

/// The number with the other sign, where it is a number of a literal.
#[tactic(auto, using(crate::proofs::Wholes::wholes))]
pub fn whole_opposite(a: i128) -> Option<i128>
    ensures { result ≡ whole (neg_ℤ a) }
{
    whole_of(opposite(a))
}

/// The number of a literal as it is written, with a unit or without.
pub fn written(value: i128, hex: bool, unit: Option<NumberUnit>) -> Option<i128>
    ensures { result ≡ written value hex unit }
{
    match unit {
        None => whole(value),
        Some(unit) => {
            if hex {
                None
            } else {
                match whole(value) {
                    None => None,
                    Some(number) => whole_product(number, unit.multiplier()),
                }
            }
        }
    }
}

fn is_zero(n: i128) -> bool
    ensures { result ≡ int_eq n (pos 0) }
{
    n == 0
}

// The quotient, where nothing remains.
fn quotient_without_rest(a: i128, b: i128, rest: i128) -> Option<i128>
    ensures { result ≡ (if int_eq rest (pos 0) then with_value (divided a b (int_div a b)) whole else None) }
{
    if !is_zero(rest) {
        return None;
    }
    whole_of(quotient(a, b))
}

/// The exact quotient, where it is whole.
#[tactic(auto, using(crate::proofs::Wholes::quotients))]
pub fn exact_quotient(a: i128, b: i128) -> Option<i128>
    ensures { result ≡ exact_quotient a b }
{
    match remainder(a, b) {
        None => None,
        Some(rest) => quotient_without_rest(a, b, rest),
    }
}

/// What a quotient leaves.
#[tactic(auto, using(crate::proofs::Wholes::quotients))]
pub fn exact_remainder(a: i128, b: i128) -> Option<i128>
    ensures { result ≡ exact_remainder a b }
{
    match remainder(a, b) {
        Some(rest) => whole(rest),
        None => if is_zero(b) {
            None
        } else {
            // The quotient leaves 128 bits, and nothing remains.
            whole(0)
        },
    }
}

// A power of 0, 1 or -1, which is one of these.
#[tactic(auto, using(crate::proofs::Powers::small))]
fn small_power(a: i128, exponent: u128) -> i128
    requires { unsigned_abs a < 2 }
    ensures { result ≡ power_of a exponent }
{
    if exponent == 0 {
        1
    } else if a == -1 && exponent % 2 == 0 {
        1
    } else {
        a
    }
}

// A power by as many products, until one is too large; then so is the power.
#[tactic(auto, using(crate::proofs::Powers::powers))]
fn large_power(a: i128, exponent: u128) -> Option<i128>
    requires { 0 < unsigned_abs a }
    ensures { result ≡ whole (power_of a exponent) }
{
    let mut so_far: i128 = 1;
    let mut left = exponent;
    while left > 0 {
        match whole_product(so_far, a) {
            None => return None,
            Some(more) => {
                so_far = more;
                left -= 1;
            }
        }
    }
    whole(so_far)
}

/// A power, whose exponent isn't negative.
#[tactic(auto, using(crate::proofs::Powers::exponents))]
pub fn exact_power(a: i128, exponent: i128) -> Option<i128>
    ensures { result ≡ exact_power a exponent }
{
    if exponent < 0 {
        return None;
    }
    let exponent = exponent.unsigned_abs();
    if a.unsigned_abs() < 2 {
        whole(small_power(a, exponent))
    } else {
        large_power(a, exponent)
    }
}

// Products, sums and quotients of 128 bits.

ghost use Rattle.std.specs.Prelude.{◌≡◌, ◌↔◌, IsTrue, ◌+ℤ◌, ◌-ℤ◌, ◌*ℤ◌, neg_ℤ, FitsSigned, int_div, int_rem};
ghost use Rattle.std.specs.Int.{w128, IsGcd};
ghost use Rattle.std.specs.Option.{SomeIff};
ghost use Rattle.chc_nums.specs.Values.{with_value};
ghost use Rattle.chc_nums.specs.Wide.{in_128, IsShort, add_product, divided};

/// `a * b + c * d`, or none exactly where a product or the sum leaves 128 bits.
pub fn mul_add(a: i128, b: i128, c: i128, d: i128) -> Option<i128>
    ensures { SomeIff result (FitsSigned w128 (a *ℤ b) × FitsSigned w128 (c *ℤ d) × FitsSigned w128 ((a *ℤ b) +ℤ (c *ℤ d))) ((a *ℤ b) +ℤ (c *ℤ d)) }
{
    mul_add_in(a, b, c, d)
}

/// `a * b + c * d` by its steps: both products, and then their sum.
pub fn mul_add_in(a: i128, b: i128, c: i128, d: i128) -> Option<i128>
    ensures { result ≡ with_value (in_128 (a *ℤ b)) (λ p. with_value (in_128 (c *ℤ d)) (λ q. in_128 (p +ℤ q))) }
{
    let first = product(a, b)?;
    let second = product(c, d)?;
    sum(first, second)
}

// 2^63
const SHORT: i128 = 0x8000_0000_0000_0000;

// Whether a number has so few bits that a product of two has 128.
fn is_short(a: i128) -> bool
    ensures { IsTrue result ↔ IsShort a }
{
    -SHORT <= a && a <= SHORT
}

#[tactic(auto, using(crate::proofs::Fits::products))]
fn short_product(a: i128, b: i128) -> i128
    requires first { IsShort a }
    requires second { IsShort b }
    ensures { result ≡ a *ℤ b }
{
    a * b
}

#[tactic(auto, using(crate::proofs::Fits::in_128_of))]
fn long_product(a: i128, b: i128) -> Option<i128>
    ensures { result ≡ in_128 (a *ℤ b) }
{
    a.checked_mul(b)
}

/// The product, or none where it leaves 128 bits.
#[tactic(auto, using(crate::proofs::Fits::products))]
pub fn product(a: i128, b: i128) -> Option<i128>
    ensures { result ≡ in_128 (a *ℤ b) }
{
    // Many factors are 1 and most are short, and the test of a long product is slow.
    if a == 1 {
        Some(b)
    } else if is_short(a) && is_short(b) {
        Some(short_product(a, b))
    } else {
        long_product(a, b)
    }
}

/// The sum, or none where it leaves 128 bits.
#[tactic(auto, using(crate::proofs::Fits::in_128_of))]
pub fn sum(a: i128, b: i128) -> Option<i128>
    ensures { result ≡ in_128 (a +ℤ b) }
{
    a.checked_add(b)
}

/// The difference, or none where it leaves 128 bits.
#[tactic(auto, using(crate::proofs::Fits::in_128_of))]
pub fn difference(a: i128, b: i128) -> Option<i128>
    ensures { result ≡ in_128 (a -ℤ b) }
{
    a.checked_sub(b)
}

/// The number with the other sign, or none where it leaves 128 bits.
#[tactic(auto, using(crate::proofs::Fits::in_128_of))]
pub fn opposite(a: i128) -> Option<i128>
    ensures { result ≡ in_128 (neg_ℤ a) }
{
    a.checked_neg()
}

/// One product more, or none where the product or the sum leaves 128 bits.
pub fn add_product(so_far: i128, a: i128, b: i128) -> Option<i128>
    ensures { result ≡ add_product so_far a b }
{
    let more = product(a, b)?;
    sum(so_far, more)
}

/// The quotient, truncated towards zero, or none where it leaves 128 bits or the divisor is 0.
#[tactic(auto, using(crate::proofs::Quotients::divisions))]
pub fn quotient(a: i128, b: i128) -> Option<i128>
    ensures { result ≡ divided a b (int_div a b) }
{
    a.checked_div(b)
}

/// What the quotient leaves, with the sign of `a`, or none where there is no quotient.
#[tactic(auto, using(crate::proofs::Quotients::divisions))]
pub fn remainder(a: i128, b: i128) -> Option<i128>
    ensures { result ≡ divided a b (int_rem a b) }
{
    a.checked_rem(b)
}

/// The greatest common divisor: it divides both, and each common divisor divides it. That of 0 and 0 is 0.
#[tactic(auto, using(crate::proofs::Divisors::steps))]
pub fn gcd(a: u128, b: u128) -> u128
    ensures greatest { IsGcd a b result }
    ensures zeros { a ≡ 0 → b ≡ 0 → result ≡ 0 }
{
    if b == 0 { a } else { gcd(b, a % b) }
}

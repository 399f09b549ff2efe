// Types and checked operations.

ghost use Rattle.std.specs.Prelude.{◌≡◌, ◌<◌, ◌^◌, pos, ◌≤ℤ◌, ◌*ℤ◌, ◌+ℤ◌, ◌-ℤ◌, neg_ℤ, ℕ, ◌≢◌, int_div, int_rem};
ghost use lib.IntN.{ℤ, negsuc};
ghost use Rattle.std.specs.Ordering.{int_eq};
ghost use Rattle.chc_nums.specs.declared.typed.Op.TheVariants as op;
ghost use Rattle.chc_nums.specs.declared.typed.Ty.TheVariants as ty;
ghost use Rattle.chc_nums.specs.declared.typed.Num.TheVariants as num;
ghost use Rattle.chc_nums.specs.Types.{IsType, least, greatest, judged, placed, IsSize, Truncated};

use crate::wide::{difference, product, quotient, remainder, sum};
use lists::Same;

/// An elementary type of Solidity. The number is its size in bytes, from 1 to 12; an address has 12.
#[derive(Clone, Copy, Debug, PartialEq, Eq)]
pub enum Ty {
    Bool,
    Uint(u8),
    Int(u8),
    Addr,
}

impl Same for Ty {
    fn is_same(&self, other: &Ty) -> bool {
        *self == *other
    }
}

/// An operation of Solidity's arithmetic. A negation reads its first operand alone.
#[derive(Clone, Copy, Debug, PartialEq, Eq)]
pub enum Op {
    Add,
    Sub,
    Mul,
    Div,
    Rem,
    Neg,
}

/// What a checked operation gives: the result, or that it lies below or above its type, or that the divisor is 0.
#[derive(Clone, Copy, Debug, PartialEq, Eq)]
pub enum Num {
    Value(i128),
    Under,
    Over,
    ByZero,
}

/// The least and the greatest value of a type.
pub fn range(ty: Ty) -> (i128, i128)
    requires { IsType ty }
    ensures least { result.0 ≡ least ty }
    ensures greatest { result.1 ≡ greatest ty }
{
    match ty {
        Ty::Bool => (0, 1),
        Ty::Uint(size) => (0, power(8 * size) - 1),
        Ty::Int(size) => (-power(8 * size - 1), power(8 * size - 1) - 1),
        Ty::Addr => (0, power(96) - 1),
    }
}

/// A power of 2.
pub fn power(bits: u8) -> i128
    requires { bits < 127 }
    ensures { result ≡ pos (2 ^ bits) }
{
    1 << bits
}

/// An operation on two numbers, checked against the range of a type.
pub fn checked_op(op: Op, ty: Ty, a: i128, b: i128) -> Num
    requires { IsType ty }
    ensures { result ≡ judged op ty a b }
{
    match op {
        Op::Add => placed_sum(ty, a, b),
        Op::Sub => placed_difference(ty, a, b),
        Op::Mul => placed_product(ty, a, b),
        Op::Div => placed_quotient(ty, a, b),
        Op::Rem => placed_remainder(ty, a, b),
        Op::Neg => placed_difference(ty, 0, a),
    }
}

#[tactic(auto, unfolding(crate::specs::Types::placed))]
fn placed(ty: Ty, z: i128) -> Num
    requires { IsType ty }
    ensures { result ≡ placed ty z }
{
    let (least, greatest) = range(ty);
    if z < least {
        Num::Under
    } else if greatest < z {
        Num::Over
    } else {
        Num::Value(z)
    }
}

// A product that leaves 128 bits leaves the type on the side of its sign.
#[tactic(auto, using(crate::proofs::Ranges::products))]
fn placed_product(ty: Ty, a: i128, b: i128) -> Num
    requires { IsType ty }
    ensures { result ≡ placed ty (a *ℤ b) }
{
    match product(a, b) {
        Some(z) => placed(ty, z),
        None => {
            if (a < 0) == (b < 0) {
                Num::Over
            } else {
                Num::Under
            }
        }
    }
}

// A sum that leaves 128 bits leaves the type on the side of either operand.
fn placed_sum(ty: Ty, a: i128, b: i128) -> Num
    requires { IsType ty }
    ensures { result ≡ placed ty (a +ℤ b) }
{
    match sum(a, b) {
        Some(z) => placed(ty, z),
        None => if a < 0 { Num::Under } else { Num::Over },
    }
}

// A difference that leaves 128 bits leaves the type on the side of its first operand.
fn placed_difference(ty: Ty, a: i128, b: i128) -> Num
    requires { IsType ty }
    ensures { result ≡ placed ty (a -ℤ b) }
{
    match difference(a, b) {
        Some(z) => placed(ty, z),
        None => if a < 0 { Num::Under } else { Num::Over },
    }
}

// Only the least number by -1 has a quotient that leaves 128 bits.
fn placed_quotient(ty: Ty, a: i128, b: i128) -> Num
    requires { IsType ty }
    ensures { result ≡ judged op.Div ty a b }
{
    match quotient(a, b) {
        Some(z) => placed(ty, z),
        None => if is_zero(b) { Num::ByZero } else { Num::Over },
    }
}

// Where a quotient leaves 128 bits, nothing remains.
fn placed_remainder(ty: Ty, a: i128, b: i128) -> Num
    requires { IsType ty }
    ensures { result ≡ judged op.Rem ty a b }
{
    match remainder(a, b) {
        Some(z) => placed(ty, z),
        None => if is_zero(b) {
            Num::ByZero
        } else {
            Num::Value(0)
        },
    }
}

fn is_zero(n: i128) -> bool
    ensures { result ≡ int_eq n (pos 0) }
{
    n == 0
}

/// How a quotient and what it leaves are rounded, and which of them leave a signed type.
#[tactic(auto, using(crate::proofs::Quotients::laws))]
pub fn division_laws()
    ensures truncated { (a b : ℤ) → b ≢ pos 0 → Truncated a b (int_div a b) (int_rem a b) }
    ensures quotient { (s : ℕ) → IsSize s → judged op.Div (ty.Int s) (least (ty.Int s)) (negsuc 0) ≡ num.Over }
    ensures opposite { (s : ℕ) → IsSize s → placed (ty.Int s) (neg_ℤ (least (ty.Int s))) ≡ num.Over }
{}

// Operations on numbers.

ghost use Rattle.std.specs.Prelude.{◌≡◌, ◌+ℤ◌, ◌-ℤ◌, ◌*ℤ◌, neg_ℤ, int_div, int_rem, IsTrue, slice_set};
ghost use Rattle.chc_nums.specs.Types.{judged};
ghost use Rattle.chc_nums.specs.declared.Ty.TheVariants as type_of;
ghost use Rattle.sol_core.specs.Values.{in_range};
ghost use Rattle.sol_core.specs.Wrapping.{wrapped, wrapped_by, unchecked};
ghost use Rattle.sol_meaning.specs.Frames.{number_at};
ghost use Rattle.sol_meaning.specs.Eval.{operated, compared, truth, is_zero, index_in};
ghost use Rattle.sol_eval.specs.Sized.{type_sized};

use chc_nums::{List, Num, Op, Ty, checked_op, power};
use sol_core::Cmp;

/// An operation, checked against its type or taken into it.
pub fn operated(checked: bool, op: Op, ty: Ty, x: i128, y: i128) -> Num
    requires { IsTrue (type_sized ty) }
    ensures { result ≡ operated checked op ty x y }
{
    if checked {
        judged(op, ty, x, y)
    } else {
        unchecked(op, ty, x, y)
    }
}

fn unchecked(op: Op, ty: Ty, x: i128, y: i128) -> Num
    requires { IsTrue (type_sized ty) }
    ensures { result ≡ unchecked op ty x y }
{
    match op {
        Op::Add => Num::Value(wrapped_sum(ty, x, y)),
        Op::Sub => Num::Value(wrapped_difference(ty, x, y)),
        Op::Mul => Num::Value(wrapped_product(ty, x, y)),
        Op::Div => wrapped_quotient(ty, x, y),
        Op::Rem => wrapped_rest(ty, x, y),
        Op::Neg => Num::Value(wrapped_opposite(ty, x)),
    }
}

// What wraps at 128 bits differs by a multiple of the number of each type's values.
fn wrapped_sum(ty: Ty, x: i128, y: i128) -> i128
    requires { IsTrue (type_sized ty) }
    ensures { result ≡ wrapped ty (x +ℤ y) }
{
    wrapped(ty, x.wrapping_add(y))
}

fn wrapped_difference(ty: Ty, x: i128, y: i128) -> i128
    requires { IsTrue (type_sized ty) }
    ensures { result ≡ wrapped ty (x -ℤ y) }
{
    wrapped(ty, x.wrapping_sub(y))
}

fn wrapped_product(ty: Ty, x: i128, y: i128) -> i128
    requires { IsTrue (type_sized ty) }
    ensures { result ≡ wrapped ty (x *ℤ y) }
{
    wrapped(ty, x.wrapping_mul(y))
}

fn wrapped_opposite(ty: Ty, x: i128) -> i128
    requires { IsTrue (type_sized ty) }
    ensures { result ≡ wrapped ty (neg_ℤ x) }
{
    wrapped(ty, x.wrapping_neg())
}

fn wrapped_quotient(ty: Ty, x: i128, y: i128) -> Num
    requires { IsTrue (type_sized ty) }
    ensures { result ≡ wrapped_by ty y (int_div x y) }
{
    if y == 0 {
        Num::ByZero
    } else {
        Num::Value(wrapped(ty, x.wrapping_div(y)))
    }
}

fn wrapped_rest(ty: Ty, x: i128, y: i128) -> Num
    requires { IsTrue (type_sized ty) }
    ensures { result ≡ wrapped_by ty y (int_rem x y) }
{
    if y == 0 {
        Num::ByZero
    } else {
        Num::Value(wrapped(ty, x.wrapping_rem(y)))
    }
}

#[tactic(auto, using(crate::proofs::Sizes::type_size))]
fn judged(op: Op, ty: Ty, x: i128, y: i128) -> Num
    requires { IsTrue (type_sized ty) }
    ensures { result ≡ judged op ty x y }
{
    checked_op(op, ty, x, y)
}

/// A number taken into a type.
#[tactic(auto, using(crate::proofs::Sizes::type_size))]
pub fn wrapped(ty: Ty, z: i128) -> i128
    requires { IsTrue (type_sized ty) }
    ensures { result ≡ wrapped ty z }
{
    sol_core::wrapped(ty, z)
}

/// Whether a number lies in a type, also in one of a size that Solidity does not have.
pub fn in_range(ty: Ty, z: i128) -> bool
    ensures { result ≡ in_range ty z }
{
    match ty {
        Ty::Bool => 0 <= z && z <= 1,
        Ty::Uint(size) => in_unsigned(size, z),
        Ty::Int(size) => in_signed(size, z),
        Ty::Addr => 0 <= z && z < power(96),
    }
}

// From 16 bytes on a type has every number of 128 bits that is not below it.
#[tactic(auto, using(crate::proofs::Ranges::ranges))]
fn in_unsigned(size: u8, z: i128) -> bool
    ensures { result ≡ in_range (type_of.Uint size) z }
{
    if 0 <= z {
        size > 15 || z < power(8 * size)
    } else {
        false
    }
}

#[tactic(auto, using(crate::proofs::Ranges::ranges))]
fn in_signed(size: u8, z: i128) -> bool
    ensures { result ≡ in_range (type_of.Int size) z }
{
    if size > 15 {
        true
    } else {
        let half = power((8 * size).saturating_sub(1));
        -half <= z && z < half
    }
}

pub fn compared(cmp: Cmp, x: i128, y: i128) -> bool
    ensures { result ≡ compared cmp x y }
{
    match cmp {
        Cmp::Lt => x < y,
        Cmp::Le => x <= y,
        Cmp::Gt => x > y,
        Cmp::Ge => x >= y,
        Cmp::Eq => x == y,
        Cmp::Ne => x != y,
    }
}

pub fn truth(b: bool) -> i128
    ensures { result ≡ truth b }
{
    if b { 1 } else { 0 }
}

pub fn is_zero(n: i128) -> bool
    ensures { result ≡ is_zero n }
{
    n == 0
}

/// A number in a list, or 0 past its end.
pub fn number_at(all: &[i128], at: usize) -> i128
    ensures { result ≡ number_at all.now at }
{
    match all.get(at) {
        Some(n) => *n,
        None => 0,
    }
}

/// Another number stands at a place that a list has.
#[tactic(auto, using(crate::proofs::Written::written))]
pub fn set(all: &mut List<i128>, at: usize, n: i128)
    ensures { all.new ≡ slice_set all.old at n }
{
    if at < all.len() {
        all.set(at, n);
    }
}

/// An index into so many elements.
pub fn index_in(count: usize, z: i128) -> Option<usize>
    ensures { result ≡ index_in count z }
{
    if 0 <= z && z < count as i128 {
        Some(z as usize)
    } else {
        None
    }
}

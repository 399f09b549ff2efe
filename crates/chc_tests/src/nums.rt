// Worked values of exact numbers.

use chc_nums::{
    List, Name, NoMemory, Num, Op, Total, Ty, add_product, checked_op, difference, gcd, mul_add,
    mul_add_in, opposite, product, quotient, range, remainder, sum,
};
use std::alloc::Global;
use std::test::Fail;

const MOST_UNSIGNED: i128 = 79228162514264337593543950335;

const MOST_SIGNED: i128 = 39614081257132168796771975167;

const LEAST_SIGNED: i128 = -39614081257132168796771975168;

// The ranges of types.
fn has_ranges() -> bool {
    range(Ty::Bool) == (0, 1)
        && range(Ty::Int(1)) == (-128, 127)
        && range(Ty::Uint(12)) == (0, MOST_UNSIGNED)
        && range(Ty::Int(12)) == (LEAST_SIGNED, MOST_SIGNED)
        && range(Ty::Addr) == (0, MOST_UNSIGNED)
}

// Operations on bytes without a sign.
fn has_unsigned_results() -> bool {
    for (op, a, b, want) in [
        (Op::Add, 200, 55, Num::Value(255)),
        (Op::Add, 200, 56, Num::Over),
        (Op::Sub, 5, 5, Num::Value(0)),
        (Op::Sub, 5, 6, Num::Under),
        (Op::Mul, 16, 16, Num::Over),
        (Op::Div, 7, 2, Num::Value(3)),
        (Op::Div, 7, 0, Num::ByZero),
        (Op::Rem, 7, 2, Num::Value(1)),
        (Op::Neg, 1, 0, Num::Under),
    ] {
        if checked_op(op, Ty::Uint(1), a, b) != want {
            return false;
        }
    }
    true
}

// Operations on signed numbers.
fn has_signed_results() -> bool {
    for (op, size, a, b, want) in [
        (Op::Mul, 12, LEAST_SIGNED, LEAST_SIGNED, Num::Over),
        (Op::Div, 12, LEAST_SIGNED, -1, Num::Over),
        (Op::Neg, 12, LEAST_SIGNED, 0, Num::Over),
        (Op::Div, 1, -7, 2, Num::Value(-3)),
        (Op::Rem, 1, -7, 2, Num::Value(-1)),
    ] {
        let ty = if size == 1 { Ty::Int(1) } else { Ty::Int(12) };
        if checked_op(op, ty, a, b) != want {
            return false;
        }
    }
    true
}

#[test]
fn operations_of_types(rt: HostRuntime) {
    assert!(rt; has_ranges() && has_unsigned_results() && has_signed_results());
}

#[test]
fn numbers_of_128_bits(rt: HostRuntime) {
    let most = i128::MAX;
    let least = i128::MIN;
    for (got, want) in [
        (mul_add(3, 4, 5, 6), Some(42)),
        (mul_add(most, 1, 1, 1), None),
        (mul_add(1, most, most, -1), Some(0)),
        (mul_add_in(2, 3, 4, 5), Some(26)),
        (add_product(1, 2, 3), Some(7)),
        (product(least, -1), None),
        (sum(most, 1), None),
        (difference(least, 1), None),
        (opposite(least), None),
        (quotient(-7, 2), Some(-3)),
        (quotient(least, -1), None),
        (remainder(-7, 2), Some(-1)),
    ] {
        assert_eq!(rt; got, want);
    }
    for (a, b, want) in [(0, 0, 0), (12, 18, 6), (1 << 127, 1 << 126, 1 << 126)] {
        assert_eq!(rt; gcd(a, b), want);
    }
}

// a + b - c, as far as it has 128 bits.
fn total(a: i128, b: i128, c: i128) -> Option<i128> {
    let all = Total::new(a).plus(b);
    all.minus(c).narrow()
}

#[test]
fn sums_of_128_bits(rt: HostRuntime) {
    let most = i128::MAX;
    let least = i128::MIN;
    for (a, b, c, want) in [
        (7, -9, -3, Some(1)),
        (most, most, most, Some(most)),
        (most, 1, 0, None),
        (least, 0, 1, None),
        (least, -1, -1, Some(least)),
        (1 << 64, -1, 0, Some(0xffff_ffff_ffff_ffff)),
        (most, most, least, None),
    ] {
        assert_eq!(rt; total(a, b, c), want);
    }
    assert_eq!(rt; Total::new(least).opposite().narrow(), None);
    assert!(rt; Total::new(0).copy().is_zero());
}

fn has_list(alloc: Global) -> Result<bool, NoMemory> {
    let mut list = List::from_vec(Vec::from_slice(alloc, &[3u32, 4])?);
    list.push(5)?;
    list.set(1, 9);
    let copy = list.copy(alloc)?;
    Ok(copy.as_slice() == [3u32, 9, 5].as_slice() && list.pop() == Some(5))
}

fn has_name(alloc: Global) -> Result<bool, NoMemory> {
    let name = Name::from_string(String::from_str(alloc, "balance")?);
    Ok(name.copy(alloc)?.as_str() == "balance")
}

#[test]
fn lists_and_names(rt: HostRuntime) -> Result<(), Fail> {
    let has_both = has_list(rt.alloc())? && has_name(rt.alloc())?;
    assert!(rt; has_both);
    Ok(())
}

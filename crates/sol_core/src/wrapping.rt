// Numbers taken into types.

ghost use Rattle.std.specs.Prelude.{◌≡◌, ◌+◌, ◌<◌, ◌^◌, ◌+ℤ◌, ◌-ℤ◌, pos, ◌≤ℤ◌};
ghost use Rattle.chc_nums.specs.Types.{IsType};
ghost use Rattle.sol_core.specs.Wrapping.{modulo, wrapped};

use chc_nums::{Ty, power, sum};

/// The number of a type that differs from a number by a multiple of the number of the type's values, as Solidity's
/// conversions give it.
pub fn wrapped(ty: Ty, z: i128) -> i128
    requires { IsType ty }
    ensures { result ≡ wrapped ty z }
{
    match ty {
        Ty::Bool => modulo(z, 1),
        Ty::Uint(size) => modulo(z, 8 * size),
        Ty::Int(size) => wrapped_signed(z, 8 * size - 1),
        Ty::Addr => modulo(z, 96),
    }
}

// The number from 0 to below a power of 2 that differs by a multiple of it.
fn modulo(z: i128, bits: u8) -> i128
    requires { bits < 127 }
    ensures { result ≡ pos (modulo z (2 ^ bits)) }
{
    z.rem_euclid(power(bits))
}

fn wrapped_signed(z: i128, bits: u8) -> i128
    requires { bits < 126 }
    ensures { result ≡ pos (modulo (z +ℤ pos (2 ^ bits)) (2 ^ (bits + 1))) -ℤ pos (2 ^ bits) }
{
    raised(z, bits) - power(bits)
}

// Where half the values more are past 128 bits, half the values less give the same number.
fn raised(z: i128, bits: u8) -> i128
    requires { bits < 126 }
    ensures { result ≡ pos (modulo (z +ℤ pos (2 ^ bits)) (2 ^ (bits + 1))) }
{
    match sum(z, power(bits)) {
        Some(above) => modulo(above, bits + 1),
        None => lowered(z, bits),
    }
}

fn lowered(z: i128, bits: u8) -> i128
    requires bits { bits < 126 }
    requires high { pos (2 ^ bits) ≤ℤ z }
    ensures { result ≡ pos (modulo (z +ℤ pos (2 ^ bits)) (2 ^ (bits + 1))) }
{
    modulo(below(z, bits), bits + 1)
}

fn below(z: i128, bits: u8) -> i128
    requires bits { bits < 126 }
    requires high { pos (2 ^ bits) ≤ℤ z }
    ensures { result ≡ z -ℤ pos (2 ^ bits) }
{
    z - power(bits)
}

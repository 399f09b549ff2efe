// Panics, and what panics.

ghost use Rattle.std.specs.Prelude.{◌≡◌, Some, length, pos};
ghost use lib.IntN.{ℤ};
ghost use Rattle.sol_meaning.specs.declared.world.End.{End};
ghost use Rattle.sol_meaning.specs.declared.world.Got.TheVariants as got;
ghost use Rattle.sol_meaning.specs.Frames.{panic, number_at, array_at};
ghost use Rattle.sol_meaning.specs.Eval.{arithmetic, at_index, index_in};
ghost use Rattle.sol_meaning.specs.declared.world.Spot.TheVariants as spot;
ghost use Rattle.sol_eval.specs.Ran.{Ran};
ghost use Rattle.sol_eval.specs.Sized.{IsFound};

use crate::numbers::index_in;
use chc_nums::{NoMemory, Num};
use sol_core::PanicSites;
use sol_meaning::{End, Got, Spot, World};

// A panic adds its target, where it has one.
fn panic(site: Option<u32>, w: &mut World) -> Result<Got<i128>, NoMemory>
    ensures ran { Ran (panic {A = ℤ} site w.old) result w.new }
    ensures kept { w.new.state ≡ w.old.state }
{
    match site {
        None => Ok(Got::Reverted),
        Some(site) => {
            w.hits.push(site)?;
            Ok(Got::Reverted)
        }
    }
}

/// A panic in a statement.
pub fn panic_at(site: u32, w: &mut World) -> Result<Got<End>, NoMemory>
    ensures ran { Ran (panic {A = End} (Some site) w.old) result w.new }
    ensures kept { w.new.state ≡ w.old.state }
{
    w.hits.push(site)?;
    Ok(Got::Reverted)
}

/// What an operation gives: its value, or the panic of its cause.
pub fn arithmetic(n: Num, panics: PanicSites, w: &mut World) -> Result<Got<i128>, NoMemory>
    ensures ran { Ran (arithmetic n panics w.old) result w.new }
    ensures kept { w.new.state ≡ w.old.state }
{
    match n {
        Num::Value(z) => Ok(Got::Value(z)),
        Num::Under => panic(panics.under, w),
        Num::Over => panic(panics.over, w),
        Num::ByZero => panic(panics.zero, w),
    }
}

/// How many elements an array has.
pub fn length_at(w: &World, a: u32) -> i128
    ensures { result ≡ pos (length (array_at w.now.state.arrays a)) }
{
    array_at(w, a).len() as i128
}

/// The elements of an array, or none where there is no such array.
pub fn array_at(w: &World, a: u32) -> &[i128]
    ensures { result.now ≡ array_at w.now.state.arrays a }
{
    match w.state.arrays.as_slice().get(a as usize) {
        Some(array) => array.as_slice(),
        None => &[],
    }
}

/// An element of an array, or the panic of an index at or past its length.
pub fn element_at(a: u32, index: i128, site: u32, w: &mut World) -> Result<Got<i128>, NoMemory>
    ensures ran { Ran (at_index site (index_in (length (array_at w.old.state.arrays a)) index) (λ n u. (got.Value (number_at (array_at u.state.arrays a) n), u)) w.old) result w.new }
    ensures kept { w.new.state ≡ w.old.state }
{
    let array = array_at(w, a);
    match index_in(array.len(), index) {
        Some(n) => Ok(Got::Value(array[n])),
        None => panic(Some(site), w),
    }
}

/// The place of an element of an array, or the panic of an index at or past its length.
pub fn spot_at(a: u32, index: i128, site: u32, w: &mut World) -> Result<Got<Spot>, NoMemory>
    ensures ran { Ran (at_index site (index_in (length (array_at w.old.state.arrays a)) index) (λ n u. (got.Value (spot.Element a n), u)) w.old) result w.new }
    ensures found { IsFound result }
    ensures kept { w.new.state ≡ w.old.state }
{
    match index_in(array_at(w, a).len(), index) {
        Some(n) => Ok(Got::Value(Spot::Element(a, n))),
        None => {
            w.hits.push(site)?;
            Ok(Got::Reverted)
        }
    }
}

// Changes of arrays.

ghost use Rattle.std.specs.Prelude.{◌≡◌, ◌++◌, ◌∷◌, [], ◌-◌, ◌<◌, OnOk, take, length, slice_set};
ghost use Rattle.sol_meaning.specs.Frames.{array_at};
ghost use Rattle.sol_meaning.specs.Exec.{pushed, popped, cleared};
ghost use Rattle.sol_eval.specs.Ran.{Ran, Kept};
ghost use Rattle.sol_eval.specs.Framed.{frame_in};

use crate::frames::Frame;
use crate::numbers::set;
use crate::panics::{array_at, panic_at};
use chc_nums::{List, NoMemory};
use sol_meaning::{End, Got, World};
use std::alloc::Global;
use std::mem;

// 2^96 - 1
const MOST_ELEMENTS: u128 = 0xffff_ffff_ffff_ffff_ffff_ffff;

/// A push on an array; one that has as many elements as it may have is undone.
pub fn push(alloc: Global, f: &Frame, a: u32, z: i128, w: &mut World) -> Result<Got<End>, NoMemory>
    ensures ran { Ran (pushed (frame_in f.now) a z w.old) result w.new }
    ensures kept { Kept w.old.state w.new.state }
{
    if array_at(w, a).len() as u128 == MOST_ELEMENTS || f.caller.is_static {
        return Ok(Got::Reverted);
    }
    push_element(alloc, &mut w.state.arrays, a, z)?;
    Ok(Got::Value(End::Normal))
}

/// A pop on an array, or the panic of one on an empty array.
pub fn pop(alloc: Global, f: &Frame, a: u32, site: u32, w: &mut World) -> Result<Got<End>, NoMemory>
    ensures ran { Ran (popped (frame_in f.now) a site w.old) result w.new }
    ensures kept { Kept w.old.state w.new.state }
{
    if array_at(w, a).is_empty() {
        return panic_at(site, w);
    }
    if f.caller.is_static {
        return Ok(Got::Reverted);
    }
    pop_element(alloc, &mut w.state.arrays, a);
    Ok(Got::Value(End::Normal))
}

/// An array loses its elements.
pub fn clear(alloc: Global, f: &Frame, a: u32, w: &mut World) -> Got<End>
    ensures ran { cleared (frame_in f.now) a w.old ≡ (result, w.new) }
    ensures kept { Kept w.old.state w.new.state }
{
    if f.caller.is_static {
        return Got::Reverted;
    }
    set_array(&mut w.state.arrays, a, List::new(alloc));
    Got::Value(End::Normal)
}

/// Another element stands at a place of an array that has the place.
#[tactic(auto, using(crate::proofs::Written::written))]
pub fn set_element(alloc: Global, arrays: &mut List<List<i128>>, a: u32, at: usize, z: i128)
    ensures { arrays.new ≡ slice_set arrays.old a (slice_set (array_at arrays.old a) at z) }
{
    let mut array = take_array(alloc, arrays, a);
    set(&mut array, at, z);
    set_array(arrays, a, array);
}

// Where memory is wanted the arrays stay as they were.
#[tactic(auto, using(crate::proofs::Written::written))]
fn push_element(
    alloc: Global,
    arrays: &mut List<List<i128>>,
    a: u32,
    z: i128,
) -> Result<(), NoMemory>
    ensures { OnOk result (arrays.new ≡ slice_set arrays.old a (array_at arrays.old a ++ z ∷ [])) }
{
    let mut array = take_array(alloc, arrays, a);
    let pushed = array.push(z);
    set_array(arrays, a, array);
    pushed
}

#[tactic(auto, using(crate::proofs::Written::written))]
fn pop_element(alloc: Global, arrays: &mut List<List<i128>>, a: u32)
    ensures { arrays.new ≡ slice_set arrays.old a (take (length (array_at arrays.old a) - 1) (array_at arrays.old a)) }
{
    let mut array = take_array(alloc, arrays, a);
    array.pop();
    set_array(arrays, a, array);
}

// The array at a place, in whose stead an empty one stands there.
#[tactic(auto, using(crate::proofs::Written::written))]
fn take_array(alloc: Global, arrays: &mut List<List<i128>>, a: u32) -> List<i128>
    ensures taken { result ≡ array_at arrays.old a }
    ensures left { arrays.new ≡ slice_set arrays.old a [] }
{
    let a = a as usize;
    if a < arrays.len() {
        exchange(alloc, arrays, a, List::new(alloc))
    } else {
        List::new(alloc)
    }
}

// Another array at a place, for the one that was there.
#[tactic(auto, using(crate::proofs::Written::written))]
fn exchange(alloc: Global, arrays: &mut List<List<i128>>, a: usize, array: List<i128>) -> List<i128>
    requires { a < length arrays.old }
    ensures taken { result ≡ array_at arrays.old a }
    ensures left { arrays.new ≡ slice_set arrays.old a array }
{
    let mut all = mem::replace(arrays, List::new(alloc)).into_vec();
    let taken = mem::replace(&mut all[a], array);
    *arrays = List::from_vec(all);
    taken
}

#[tactic(auto, using(crate::proofs::Written::written))]
fn set_array(arrays: &mut List<List<i128>>, a: u32, array: List<i128>)
    ensures { arrays.new ≡ slice_set arrays.old a array }
{
    if (a as usize) < arrays.len() {
        arrays.set(a as usize, array);
    }
}

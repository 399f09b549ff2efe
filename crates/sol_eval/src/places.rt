// What assignments write.

ghost use Rattle.std.specs.Prelude.{◌≡◌, IsTrue, length};
ghost use Rattle.sol_meaning.specs.declared.world.Got.TheVariants as got;
ghost use Rattle.sol_meaning.specs.declared.world.Spot.TheVariants as spot;
ghost use Rattle.sol_meaning.specs.Frames.{and_then, array_at};
ghost use Rattle.sol_meaning.specs.Eval.{eval, at_index, index_in};
ghost use Rattle.sol_meaning.specs.Exec.{located, held, stored, assigned, given};
ghost use Rattle.sol_eval.specs.Ran.{Ran, Kept};
ghost use Rattle.sol_eval.specs.Framed.{frame_in};
ghost use Rattle.sol_eval.specs.Makes.{Makes};
ghost use Rattle.sol_eval.specs.Sized.{expr_sized, place_sized, place_sized_if, spot_sized, IsFound};

use crate::arrays::set_element;
use crate::frames::{Frame, Runner};
use crate::numbers::{number_at, set};
use crate::panics::{array_at, spot_at};
use chc_nums::NoMemory;
use sol_core::{Expr, Place};
use sol_meaning::{End, Got, Spot, World};
use std::alloc::Global;

impl<F: Fn(Global, &Frame, u32, &[i128], &mut World) -> Result<Got<i128>, NoMemory>> Runner<'_, F> {
    /// What a call gives goes to a place, where it has one.
    pub fn give(&self, place: &Option<Place>, n: i128, w: &mut World) -> Result<Got<End>, NoMemory>
        requires runs { Makes self.now.frame.program.now self.now.frame.level (F.pre self.now.call) (F.post self.now.call) }
        requires sized { IsTrue (place_sized_if place.now) }
        ensures ran { Ran (given (frame_in self.now.frame) place.now n w.old) result w.new }
        ensures kept { Kept w.old.state w.new.state }
    {
        match place {
            None => Ok(Got::Value(End::Normal)),
            Some(place) => self.assign(place, n, w),
        }
    }

    /// A number is written at a place.
    pub fn assign(&self, place: &Place, n: i128, w: &mut World) -> Result<Got<End>, NoMemory>
        requires runs { Makes self.now.frame.program.now self.now.frame.level (F.pre self.now.call) (F.post self.now.call) }
        requires sized { IsTrue (place_sized place.now) }
        ensures ran { Ran (assigned (frame_in self.now.frame) place.now n w.old) result w.new }
        ensures kept { Kept w.old.state w.new.state }
    {
        match self.locate(place, w)? {
            Got::Value(spot) => Ok(store(self.alloc, &self.frame, n, spot, w)),
            Got::Reverted => Ok(Got::Reverted),
            Got::Cut => Ok(Got::Cut),
        }
    }

    /// A place with the values of its index expressions.
    pub fn locate(&self, place: &Place, w: &mut World) -> Result<Got<Spot>, NoMemory>
        requires runs { Makes self.now.frame.program.now self.now.frame.level (F.pre self.now.call) (F.post self.now.call) }
        requires sized { IsTrue (place_sized place.now) }
        ensures ran { Ran (located (frame_in self.now.frame) place.now w.old) result w.new }
        ensures found { IsFound result }
        ensures kept { Kept w.old.state w.new.state }
    {
        match place {
            Place::Local(i) => Ok(Got::Value(Spot::Local(*i))),
            Place::Scalar(i) => Ok(Got::Value(Spot::Scalar(*i))),
            Place::Elem(a, index, site) => self.locate_element(*a, index, *site, w),
            Place::Map(_, _) => Ok(Got::Reverted),
        }
    }

    fn locate_element(
        &self,
        a: u32,
        index: &Expr,
        site: u32,
        w: &mut World,
    ) -> Result<Got<Spot>, NoMemory>
        requires runs { Makes self.now.frame.program.now self.now.frame.level (F.pre self.now.call) (F.post self.now.call) }
        requires sized { IsTrue (expr_sized index.now) }
        ensures ran { Ran (and_then (eval (frame_in self.now.frame) index.now w.old) (λ i v. at_index site (index_in (length (array_at v.state.arrays a)) i) (λ n u. (got.Value (spot.Element a n), u)) v)) result w.new }
        ensures found { IsFound result }
        ensures kept { Kept w.old.state w.new.state }
    {
        match self.eval(index, w)? {
            Got::Value(i) => spot_at(a, i, site, w),
            Got::Reverted => Ok(Got::Reverted),
            Got::Cut => Ok(Got::Cut),
        }
    }
}

/// What stands at a place.
pub fn held(spot: Spot, w: &World) -> i128
    requires { IsTrue (spot_sized spot) }
    ensures { result ≡ held w.now spot }
{
    match spot {
        Spot::Local(i) => number_at(w.locals.as_slice(), i as usize),
        Spot::Scalar(i) => number_at(w.state.scalars.as_slice(), i as usize),
        Spot::Element(a, at) => number_at(array_at(w, a), at),
        Spot::Entry(_, _, _) => 0,
    }
}

/// A number is written at a place; a static call is undone where that would change the state.
pub fn store(alloc: Global, f: &Frame, n: i128, spot: Spot, w: &mut World) -> Got<End>
    requires { IsTrue (spot_sized spot) }
    ensures ran { stored (frame_in f.now) n spot w.old ≡ (result, w.new) }
    ensures kept { Kept w.old.state w.new.state }
{
    match spot {
        Spot::Local(i) => {
            set(&mut w.locals, i as usize, n);
            Got::Value(End::Normal)
        }
        Spot::Scalar(i) => {
            if f.caller.is_static {
                return Got::Reverted;
            }
            set(&mut w.state.scalars, i as usize, n);
            Got::Value(End::Normal)
        }
        Spot::Element(a, at) => {
            if f.caller.is_static {
                return Got::Reverted;
            }
            set_element(alloc, &mut w.state.arrays, a, at, n);
            Got::Value(End::Normal)
        }
        Spot::Entry(_, _, _) => Got::Reverted,
    }
}

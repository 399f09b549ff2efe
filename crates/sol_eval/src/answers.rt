// External calls, and what answers them.

ghost use Rattle.std.specs.Prelude.{◌≡◌, ◌&&◌, IsTrue, map, slice_get, Some};
ghost use Rattle.std.specs.List.{list_all};
ghost use Rattle.sol_meaning.specs.Frames.{and_then};
ghost use Rattle.sol_meaning.specs.Eval.{eval, values_of};
ghost use Rattle.sol_meaning.specs.Exec.{replied, met, received, answered, taken_value};
ghost use Rattle.sol_eval.specs.Ran.{Ran, Kept};
ghost use Rattle.sol_eval.specs.Framed.{frame_in};
ghost use Rattle.sol_eval.specs.Makes.{Makes};
ghost use Rattle.sol_eval.specs.Sized.{expr_sized, place_sized_if};

use crate::frames::{Frame, Runner};
use crate::numbers::in_range;
use chc_nums::{NoMemory, Ty};
use sol_core::{Answer, Expr, OutFun, Place, Reply};
use sol_meaning::{End, Got, World};
use std::alloc::Global;

impl<F: Fn(Global, &Frame, u32, &[i128], &mut World) -> Result<Got<i128>, NoMemory>> Runner<'_, F> {
    /// An external call of the function at a place among those of interfaces.
    pub fn exec_out(
        &self,
        place: &Option<Place>,
        f: u32,
        target: &Expr,
        es: &[Expr],
        w: &mut World,
    ) -> Result<Got<End>, NoMemory>
        requires runs { Makes self.now.frame.program.now self.now.frame.level (F.pre self.now.call) (F.post self.now.call) }
        requires sized { IsTrue (place_sized_if place.now && (expr_sized target.now && list_all expr_sized es.now)) }
        ensures ran { Ran (and_then (eval (frame_in self.now.frame) target.now w.old) (λ target v. and_then (values_of (map (eval (frame_in self.now.frame)) es.now) v) (λ args u. replied (frame_in self.now.frame) place.now (slice_get (frame_in self.now.frame).level.program.outs f) (slice_get (frame_in self.now.frame).caller.replies u.taken) u))) result w.new }
        ensures kept { Kept w.old.state w.new.state }
    {
        match self.eval(target, w)? {
            Got::Value(_) => self.out_with(place, f, es, w),
            Got::Reverted => Ok(Got::Reverted),
            Got::Cut => Ok(Got::Cut),
        }
    }

    fn out_with(
        &self,
        place: &Option<Place>,
        f: u32,
        es: &[Expr],
        w: &mut World,
    ) -> Result<Got<End>, NoMemory>
        requires runs { Makes self.now.frame.program.now self.now.frame.level (F.pre self.now.call) (F.post self.now.call) }
        requires sized { IsTrue (place_sized_if place.now && list_all expr_sized es.now) }
        ensures ran { Ran (and_then (values_of (map (eval (frame_in self.now.frame)) es.now) w.old) (λ args u. replied (frame_in self.now.frame) place.now (slice_get (frame_in self.now.frame).level.program.outs f) (slice_get (frame_in self.now.frame).caller.replies u.taken) u)) result w.new }
        ensures kept { Kept w.old.state w.new.state }
    {
        match self.eval_all(es, w)? {
            Got::Value(_) => self.reply(place, f, w),
            Got::Reverted => Ok(Got::Reverted),
            Got::Cut => Ok(Got::Cut),
        }
    }

    // An external call takes the next reply of the running call; where there is none, its caller is undone.
    fn reply(&self, place: &Option<Place>, f: u32, w: &mut World) -> Result<Got<End>, NoMemory>
        requires runs { Makes self.now.frame.program.now self.now.frame.level (F.pre self.now.call) (F.post self.now.call) }
        requires sized { IsTrue (place_sized_if place.now) }
        ensures ran { Ran (replied (frame_in self.now.frame) place.now (slice_get (frame_in self.now.frame).level.program.outs f) (slice_get (frame_in self.now.frame).caller.replies w.old.taken) w.old) result w.new }
        ensures kept { Kept w.old.state w.new.state }
    {
        match self.frame.program.outs.get(f as usize) {
            None => Ok(Got::Reverted),
            Some(out) => self.reply_to(place, out, w),
        }
    }

    fn reply_to(
        &self,
        place: &Option<Place>,
        out: &OutFun,
        w: &mut World,
    ) -> Result<Got<End>, NoMemory>
        requires runs { Makes self.now.frame.program.now self.now.frame.level (F.pre self.now.call) (F.post self.now.call) }
        requires sized { IsTrue (place_sized_if place.now) }
        ensures ran { Ran (replied (frame_in self.now.frame) place.now (Some out.now) (slice_get (frame_in self.now.frame).caller.replies w.old.taken) w.old) result w.new }
        ensures kept { Kept w.old.state w.new.state }
    {
        match self.frame.caller.replies.get(w.taken) {
            None => Ok(Got::Reverted),
            Some(reply) => {
                w.taken += 1;
                self.meet(place, out, reply, w)
            }
        }
    }

    // The calls back into the contract run from the state at this point, and then the answer comes.
    fn meet(
        &self,
        place: &Option<Place>,
        out: &OutFun,
        reply: &Reply,
        w: &mut World,
    ) -> Result<Got<End>, NoMemory>
        requires runs { Makes self.now.frame.program.now self.now.frame.level (F.pre self.now.call) (F.post self.now.call) }
        requires sized { IsTrue (place_sized_if place.now) }
        ensures ran { Ran (met (frame_in self.now.frame) place.now out.now reply.now w.old) result w.new }
        ensures kept { Kept w.old.state w.new.state }
    {
        let is_static = self.frame.caller.is_static || out.view;
        if self.call_each(is_static, reply.calls.as_slice(), w)? {
            return Ok(Got::Cut);
        }
        self.receive(place, answered(out.ret, reply.answer), w)
    }

    // An answer that is no value undoes the caller.
    fn receive(
        &self,
        place: &Option<Place>,
        value: Option<i128>,
        w: &mut World,
    ) -> Result<Got<End>, NoMemory>
        requires runs { Makes self.now.frame.program.now self.now.frame.level (F.pre self.now.call) (F.post self.now.call) }
        requires sized { IsTrue (place_sized_if place.now) }
        ensures ran { Ran (received (frame_in self.now.frame) place.now value w.old) result w.new }
        ensures kept { Kept w.old.state w.new.state }
    {
        match value {
            None => Ok(Got::Reverted),
            Some(z) => self.give(place, z, w),
        }
    }
}

fn answered(ty: Option<Ty>, answer: Answer) -> Option<i128>
    ensures { result ≡ answered ty answer }
{
    match answer {
        Answer::Give(value) => taken_value(ty, value),
        Answer::Fail => None,
    }
}

// A value that is declared has to be given, and in its type; one that is not is ignored.
fn taken_value(ty: Option<Ty>, value: Option<i128>) -> Option<i128>
    ensures { result ≡ taken_value ty value }
{
    match ty {
        None => Some(0),
        Some(ty) => value_in(ty, value),
    }
}

fn value_in(ty: Ty, value: Option<i128>) -> Option<i128>
    ensures { result ≡ taken_value (Some ty) value }
{
    match value {
        None => None,
        Some(z) => if in_range(ty, z) { Some(z) } else { None },
    }
}

// What statements do.

ghost use Rattle.std.specs.Prelude.{◌≡◌, ◌&&◌, IsTrue, map, slice_get, if◌then◌else◌};
ghost use Rattle.std.specs.List.{list_all};
ghost use Rattle.sol_meaning.specs.declared.world.Got.TheVariants as got;
ghost use Rattle.sol_meaning.specs.Frames.{and_then};
ghost use Rattle.sol_meaning.specs.Eval.{eval, is_zero, operated, arithmetic, values_of};
ghost use Rattle.sol_meaning.specs.Exec.{exec, exec_all, assigned, located, held, stored, pushed, given, required, asserted, changed, scoped, ends, tested, goes_on, looped, turned, after_turn};
ghost use Rattle.sol_eval.specs.Ran.{Ran, Kept};
ghost use Rattle.sol_eval.specs.Framed.{frame_in};
ghost use Rattle.sol_eval.specs.Makes.{Makes};
ghost use Rattle.sol_eval.specs.Sized.{type_sized, expr_sized, place_sized, place_sized_if, spot_sized, stmt_sized};

use crate::arrays::{clear, pop, push};
use crate::frames::{Frame, Runner};
use crate::numbers::{is_zero, operated};
use crate::panics::{arithmetic, panic_at};
use crate::places::{held, store};
use chc_nums::{NoMemory, Op, Ty};
use sol_core::{Expr, PanicSites, Place, Stmt};
use sol_meaning::{End, Got, Spot, World};
use sqlite_items::Items;
use std::alloc::Global;

impl<F: Fn(Global, &Frame, u32, &[i128], &mut World) -> Result<Got<i128>, NoMemory>> Runner<'_, F> {
    /// Statements one after another, until one leaves.
    #[cycle(exec)]
    pub fn exec_all(&self, ss: &[Stmt], w: &mut World) -> Result<Got<End>, NoMemory>
        requires runs { Makes self.now.frame.program.now self.now.frame.level (F.pre self.now.call) (F.post self.now.call) }
        requires sized { IsTrue (list_all stmt_sized ss.now) }
        ensures ran { Ran (exec_all (frame_in self.now.frame) ss.now w.old) result w.new }
        ensures kept { Kept w.old.state w.new.state }
    {
        for s in ss {
            match self.exec(s, w)? {
                Got::Value(End::Normal) => {}
                other => return Ok(other),
            }
        }
        Ok(Got::Value(End::Normal))
    }

    #[cycle(exec)]
    #[tactic(auto, using(sol_meaning::proofs::Statements::statements, crate::proofs::Sizes::sized_statements, crate::proofs::Weights::statements))]
    fn exec(&self, s: &Stmt, w: &mut World) -> Result<Got<End>, NoMemory>
        requires runs { Makes self.now.frame.program.now self.now.frame.level (F.pre self.now.call) (F.post self.now.call) }
        requires sized { IsTrue (stmt_sized s.now) }
        ensures ran { Ran (exec (frame_in self.now.frame) s.now w.old) result w.new }
        ensures kept { Kept w.old.state w.new.state }
    {
        match s {
            Stmt::Set(place, e) => self.exec_set(place, e, w),
            Stmt::Step(place, op, ty, checked, e, panics) => self.exec_step(
                place, *op, *ty, *checked, e, *panics, w,
            ),
            Stmt::Push(a, e) => self.exec_push(*a, e, w),
            Stmt::Pop(a, site) => pop(self.alloc, &self.frame, *a, *site, w),
            Stmt::Clear(a) => Ok(clear(self.alloc, &self.frame, *a, w)),
            Stmt::Out(place, f, target, es) => self.exec_out(place, *f, target, es.as_slice(), w),
            Stmt::Call(place, f, es) => self.exec_call(place, *f, es.as_slice(), w),
            Stmt::If(e, a, b) => self.exec_if(e, a.as_slice(), b.as_slice(), w),
            Stmt::While(e, a, b) => self.exec_while(e, a, b, w),
            Stmt::DoWhile(a, e) => self.exec_do(e, a, w),
            Stmt::Break => Ok(Got::Value(End::Broke)),
            Stmt::Continue => Ok(Got::Value(End::Continued)),
            Stmt::Leave => Ok(Got::Value(End::Left)),
            Stmt::Scope(a) => self.exec_scope(a.as_slice(), w),
            Stmt::Require(e) => self.exec_require(e, w),
            Stmt::Assert(e, site) => self.exec_assert(e, *site, w),
            Stmt::Revert(es) => self.exec_revert(es.as_slice(), w),
            Stmt::Emit(es) => self.exec_emit(es.as_slice(), w),
        }
    }

    #[cycle(exec)]
    fn exec_if(&self, e: &Expr, a: &[Stmt], b: &[Stmt], w: &mut World) -> Result<Got<End>, NoMemory>
        requires runs { Makes self.now.frame.program.now self.now.frame.level (F.pre self.now.call) (F.post self.now.call) }
        requires sized { IsTrue (expr_sized e.now && (list_all stmt_sized a.now && list_all stmt_sized b.now)) }
        ensures ran { Ran (and_then (eval (frame_in self.now.frame) e.now w.old) (λ n v. if is_zero n then exec_all (frame_in self.now.frame) b.now v else exec_all (frame_in self.now.frame) a.now v)) result w.new }
        ensures kept { Kept w.old.state w.new.state }
    {
        match self.eval(e, w)? {
            Got::Value(n) => if is_zero(n) {
                self.exec_all(b, w)
            } else {
                self.exec_all(a, w)
            },
            Got::Reverted => Ok(Got::Reverted),
            Got::Cut => Ok(Got::Cut),
        }
    }

    #[cycle(exec)]
    fn exec_scope(&self, a: &[Stmt], w: &mut World) -> Result<Got<End>, NoMemory>
        requires runs { Makes self.now.frame.program.now self.now.frame.level (F.pre self.now.call) (F.post self.now.call) }
        requires sized { IsTrue (list_all stmt_sized a.now) }
        ensures ran { Ran (and_then (exec_all (frame_in self.now.frame) a.now w.old) (λ e v. (got.Value (scoped e), v))) result w.new }
        ensures kept { Kept w.old.state w.new.state }
    {
        match self.exec_all(a, w)? {
            Got::Value(end) => Ok(Got::Value(scoped(end))),
            Got::Reverted => Ok(Got::Reverted),
            Got::Cut => Ok(Got::Cut),
        }
    }

    fn exec_set(&self, place: &Place, e: &Expr, w: &mut World) -> Result<Got<End>, NoMemory>
        requires runs { Makes self.now.frame.program.now self.now.frame.level (F.pre self.now.call) (F.post self.now.call) }
        requires sized { IsTrue (place_sized place.now && expr_sized e.now) }
        ensures ran { Ran (and_then (eval (frame_in self.now.frame) e.now w.old) (assigned (frame_in self.now.frame) place.now)) result w.new }
        ensures kept { Kept w.old.state w.new.state }
    {
        match self.eval(e, w)? {
            Got::Value(n) => self.assign(place, n, w),
            Got::Reverted => Ok(Got::Reverted),
            Got::Cut => Ok(Got::Cut),
        }
    }

    // The right side goes first, then the index expressions of the place, and then the old value is read.
    fn exec_step(
        &self,
        place: &Place,
        op: Op,
        ty: Ty,
        checked: bool,
        e: &Expr,
        panics: PanicSites,
        w: &mut World,
    ) -> Result<Got<End>, NoMemory>
        requires runs { Makes self.now.frame.program.now self.now.frame.level (F.pre self.now.call) (F.post self.now.call) }
        requires sized { IsTrue (place_sized place.now && (type_sized ty && expr_sized e.now)) }
        ensures ran { Ran (and_then (eval (frame_in self.now.frame) e.now w.old) (λ y v. and_then (located (frame_in self.now.frame) place.now v) (λ s u. and_then (arithmetic (operated checked op ty (held u s) y) panics u) (λ z. stored (frame_in self.now.frame) z s)))) result w.new }
        ensures kept { Kept w.old.state w.new.state }
    {
        match self.eval(e, w)? {
            Got::Value(y) => self.step_by(place, op, ty, checked, y, panics, w),
            Got::Reverted => Ok(Got::Reverted),
            Got::Cut => Ok(Got::Cut),
        }
    }

    fn step_by(
        &self,
        place: &Place,
        op: Op,
        ty: Ty,
        checked: bool,
        y: i128,
        panics: PanicSites,
        w: &mut World,
    ) -> Result<Got<End>, NoMemory>
        requires runs { Makes self.now.frame.program.now self.now.frame.level (F.pre self.now.call) (F.post self.now.call) }
        requires sized { IsTrue (place_sized place.now && type_sized ty) }
        ensures ran { Ran (and_then (located (frame_in self.now.frame) place.now w.old) (λ s u. and_then (arithmetic (operated checked op ty (held u s) y) panics u) (λ z. stored (frame_in self.now.frame) z s))) result w.new }
        ensures kept { Kept w.old.state w.new.state }
    {
        match self.locate(place, w)? {
            Got::Value(spot) => self.step_at(spot, op, ty, checked, y, panics, w),
            Got::Reverted => Ok(Got::Reverted),
            Got::Cut => Ok(Got::Cut),
        }
    }

    fn step_at(
        &self,
        spot: Spot,
        op: Op,
        ty: Ty,
        checked: bool,
        y: i128,
        panics: PanicSites,
        w: &mut World,
    ) -> Result<Got<End>, NoMemory>
        requires spot { IsTrue (spot_sized spot) }
        requires sized { IsTrue (type_sized ty) }
        ensures ran { Ran (and_then (arithmetic (operated checked op ty (held w.old spot) y) panics w.old) (λ z. stored (frame_in self.now.frame) z spot)) result w.new }
        ensures kept { Kept w.old.state w.new.state }
    {
        let n = operated(checked, op, ty, held(spot, w), y);
        match arithmetic(n, panics, w)? {
            Got::Value(z) => Ok(store(self.alloc, &self.frame, z, spot, w)),
            Got::Reverted => Ok(Got::Reverted),
            Got::Cut => Ok(Got::Cut),
        }
    }

    fn exec_push(&self, a: u32, e: &Expr, w: &mut World) -> Result<Got<End>, NoMemory>
        requires runs { Makes self.now.frame.program.now self.now.frame.level (F.pre self.now.call) (F.post self.now.call) }
        requires sized { IsTrue (expr_sized e.now) }
        ensures ran { Ran (and_then (eval (frame_in self.now.frame) e.now w.old) (pushed (frame_in self.now.frame) a)) result w.new }
        ensures kept { Kept w.old.state w.new.state }
    {
        match self.eval(e, w)? {
            Got::Value(n) => push(self.alloc, &self.frame, a, n, w),
            Got::Reverted => Ok(Got::Reverted),
            Got::Cut => Ok(Got::Cut),
        }
    }

    fn exec_call(
        &self,
        place: &Option<Place>,
        f: u32,
        es: &[Expr],
        w: &mut World,
    ) -> Result<Got<End>, NoMemory>
        requires runs { Makes self.now.frame.program.now self.now.frame.level (F.pre self.now.call) (F.post self.now.call) }
        requires sized { IsTrue (place_sized_if place.now && list_all expr_sized es.now) }
        ensures ran { Ran (and_then (values_of (map (eval (frame_in self.now.frame)) es.now) w.old) (λ args v. and_then ((frame_in self.now.frame).level.call (frame_in self.now.frame).caller (slice_get (frame_in self.now.frame).level.program.funs f) args v) (given (frame_in self.now.frame) place.now))) result w.new }
        ensures kept { Kept w.old.state w.new.state }
    {
        match self.eval_all(es, w)? {
            Got::Value(args) => self.call_to(place, f, args.as_slice(), w),
            Got::Reverted => Ok(Got::Reverted),
            Got::Cut => Ok(Got::Cut),
        }
    }

    fn call_to(
        &self,
        place: &Option<Place>,
        f: u32,
        args: &[i128],
        w: &mut World,
    ) -> Result<Got<End>, NoMemory>
        requires runs { Makes self.now.frame.program.now self.now.frame.level (F.pre self.now.call) (F.post self.now.call) }
        requires sized { IsTrue (place_sized_if place.now) }
        ensures ran { Ran (and_then ((frame_in self.now.frame).level.call (frame_in self.now.frame).caller (slice_get (frame_in self.now.frame).level.program.funs f) args.now w.old) (given (frame_in self.now.frame) place.now)) result w.new }
        ensures kept { Kept w.old.state w.new.state }
    {
        match self.make(f, args, w)? {
            Got::Value(n) => self.give(place, n, w),
            Got::Reverted => Ok(Got::Reverted),
            Got::Cut => Ok(Got::Cut),
        }
    }

    fn exec_require(&self, e: &Expr, w: &mut World) -> Result<Got<End>, NoMemory>
        requires runs { Makes self.now.frame.program.now self.now.frame.level (F.pre self.now.call) (F.post self.now.call) }
        requires sized { IsTrue (expr_sized e.now) }
        ensures ran { Ran (and_then (eval (frame_in self.now.frame) e.now w.old) required) result w.new }
        ensures kept { Kept w.old.state w.new.state }
    {
        match self.eval(e, w)? {
            Got::Value(n) => Ok(if is_zero(n) {
                Got::Reverted
            } else {
                Got::Value(End::Normal)
            }),
            Got::Reverted => Ok(Got::Reverted),
            Got::Cut => Ok(Got::Cut),
        }
    }

    fn exec_assert(&self, e: &Expr, site: u32, w: &mut World) -> Result<Got<End>, NoMemory>
        requires runs { Makes self.now.frame.program.now self.now.frame.level (F.pre self.now.call) (F.post self.now.call) }
        requires sized { IsTrue (expr_sized e.now) }
        ensures ran { Ran (and_then (eval (frame_in self.now.frame) e.now w.old) (asserted site)) result w.new }
        ensures kept { Kept w.old.state w.new.state }
    {
        match self.eval(e, w)? {
            Got::Value(n) => asserted(site, n, w),
            Got::Reverted => Ok(Got::Reverted),
            Got::Cut => Ok(Got::Cut),
        }
    }

    fn exec_revert(&self, es: &[Expr], w: &mut World) -> Result<Got<End>, NoMemory>
        requires runs { Makes self.now.frame.program.now self.now.frame.level (F.pre self.now.call) (F.post self.now.call) }
        requires sized { IsTrue (list_all expr_sized es.now) }
        ensures ran { Ran (and_then (values_of (map (eval (frame_in self.now.frame)) es.now) w.old) (λ ns v. (got.Reverted, v))) result w.new }
        ensures kept { Kept w.old.state w.new.state }
    {
        match self.eval_all(es, w)? {
            Got::Value(_) => Ok(Got::Reverted),
            Got::Reverted => Ok(Got::Reverted),
            Got::Cut => Ok(Got::Cut),
        }
    }

    fn exec_emit(&self, es: &[Expr], w: &mut World) -> Result<Got<End>, NoMemory>
        requires runs { Makes self.now.frame.program.now self.now.frame.level (F.pre self.now.call) (F.post self.now.call) }
        requires sized { IsTrue (list_all expr_sized es.now) }
        ensures ran { Ran (and_then (values_of (map (eval (frame_in self.now.frame)) es.now) w.old) (λ ns. changed (frame_in self.now.frame) (λ s. s))) result w.new }
        ensures kept { Kept w.old.state w.new.state }
    {
        match self.eval_all(es, w)? {
            Got::Value(_) => Ok(if self.frame.caller.is_static {
                Got::Reverted
            } else {
                Got::Value(End::Normal)
            }),
            Got::Reverted => Ok(Got::Reverted),
            Got::Cut => Ok(Got::Cut),
        }
    }

    #[cycle(exec)]
    fn exec_while(
        &self,
        e: &Expr,
        a: &Items<Stmt>,
        b: &Items<Stmt>,
        w: &mut World,
    ) -> Result<Got<End>, NoMemory>
        requires runs { Makes self.now.frame.program.now self.now.frame.level (F.pre self.now.call) (F.post self.now.call) }
        requires sized { IsTrue (expr_sized e.now && (list_all stmt_sized a.now && list_all stmt_sized b.now)) }
        ensures ran { Ran (and_then (tested (eval (frame_in self.now.frame) e.now) w.old) (λ o. goes_on o (looped (frame_in self.now.frame).level.loops (eval (frame_in self.now.frame) e.now) (exec_all (frame_in self.now.frame) a.now) (exec_all (frame_in self.now.frame) b.now)))) result w.new }
        ensures kept { Kept w.old.state w.new.state }
    {
        match self.test(e, w)? {
            Got::Value(None) => self.looped(e, a, b, w),
            Got::Value(Some(end)) => Ok(Got::Value(end)),
            Got::Reverted => Ok(Got::Reverted),
            Got::Cut => Ok(Got::Cut),
        }
    }

    // A loop with the test at its end is one that begins after its test, and has no step.
    #[cycle(exec)]
    #[tactic(auto, using(crate::proofs::Loops::endless))]
    fn exec_do(&self, e: &Expr, a: &Items<Stmt>, w: &mut World) -> Result<Got<End>, NoMemory>
        requires runs { Makes self.now.frame.program.now self.now.frame.level (F.pre self.now.call) (F.post self.now.call) }
        requires sized { IsTrue (list_all stmt_sized a.now && expr_sized e.now) }
        ensures ran { Ran (looped (frame_in self.now.frame).level.loops (eval (frame_in self.now.frame) e.now) (exec_all (frame_in self.now.frame) a.now) ends w.old) result w.new }
        ensures kept { Kept w.old.state w.new.state }
    {
        let none: Items<Stmt> = Items::new(self.alloc);
        self.looped(e, a, &none, w)
    }

    #[cycle(exec)]
    #[tactic(auto, using(crate::proofs::Loops::loops))]
    fn looped(
        &self,
        e: &Expr,
        a: &Items<Stmt>,
        b: &Items<Stmt>,
        w: &mut World,
    ) -> Result<Got<End>, NoMemory>
        requires runs { Makes self.now.frame.program.now self.now.frame.level (F.pre self.now.call) (F.post self.now.call) }
        requires sized { IsTrue (expr_sized e.now && (list_all stmt_sized a.now && list_all stmt_sized b.now)) }
        ensures ran { Ran (looped (frame_in self.now.frame).level.loops (eval (frame_in self.now.frame) e.now) (exec_all (frame_in self.now.frame) a.now) (exec_all (frame_in self.now.frame) b.now) w.old) result w.new }
        ensures kept { Kept w.old.state w.new.state }
    {
        for _turn in 0..self.frame.level {
            match self.turn(e, a, b, w)? {
                Got::Value(None) => {}
                Got::Value(Some(end)) => return Ok(Got::Value(end)),
                Got::Reverted => return Ok(Got::Reverted),
                Got::Cut => return Ok(Got::Cut),
            }
        }
        Ok(Got::Cut)
    }

    #[cycle(exec)]
    fn turn(
        &self,
        e: &Expr,
        a: &Items<Stmt>,
        b: &Items<Stmt>,
        w: &mut World,
    ) -> Result<Got<Option<End>>, NoMemory>
        requires runs { Makes self.now.frame.program.now self.now.frame.level (F.pre self.now.call) (F.post self.now.call) }
        requires sized { IsTrue (expr_sized e.now && (list_all stmt_sized a.now && list_all stmt_sized b.now)) }
        ensures ran { Ran (turned (eval (frame_in self.now.frame) e.now) (exec_all (frame_in self.now.frame) a.now) (exec_all (frame_in self.now.frame) b.now) w.old) result w.new }
        ensures kept { Kept w.old.state w.new.state }
    {
        if w.turns == 0 {
            return Ok(Got::Cut);
        }
        w.turns -= 1;
        match self.exec_all(a.as_slice(), w)? {
            Got::Value(End::Normal | End::Continued) => self.step(e, b, w),
            Got::Value(End::Broke) => Ok(Got::Value(Some(End::Normal))),
            Got::Value(End::Left) => Ok(Got::Value(Some(End::Left))),
            Got::Reverted => Ok(Got::Reverted),
            Got::Cut => Ok(Got::Cut),
        }
    }

    #[cycle(exec)]
    fn step(&self, e: &Expr, b: &Items<Stmt>, w: &mut World) -> Result<Got<Option<End>>, NoMemory>
        requires runs { Makes self.now.frame.program.now self.now.frame.level (F.pre self.now.call) (F.post self.now.call) }
        requires sized { IsTrue (expr_sized e.now && list_all stmt_sized b.now) }
        ensures ran { Ran (and_then (exec_all (frame_in self.now.frame) b.now w.old) (λ d. after_turn d (tested (eval (frame_in self.now.frame) e.now)))) result w.new }
        ensures kept { Kept w.old.state w.new.state }
    {
        match self.exec_all(b.as_slice(), w)? {
            Got::Value(End::Normal) => self.test(e, w),
            Got::Value(End::Continued) => self.test(e, w),
            Got::Value(End::Broke) => Ok(Got::Value(Some(End::Normal))),
            Got::Value(End::Left) => Ok(Got::Value(Some(End::Left))),
            Got::Reverted => Ok(Got::Reverted),
            Got::Cut => Ok(Got::Cut),
        }
    }

    fn test(&self, e: &Expr, w: &mut World) -> Result<Got<Option<End>>, NoMemory>
        requires runs { Makes self.now.frame.program.now self.now.frame.level (F.pre self.now.call) (F.post self.now.call) }
        requires sized { IsTrue (expr_sized e.now) }
        ensures ran { Ran (tested (eval (frame_in self.now.frame) e.now) w.old) result w.new }
        ensures kept { Kept w.old.state w.new.state }
    {
        match self.eval(e, w)? {
            Got::Value(n) => Ok(Got::Value(if is_zero(n) { Some(End::Normal) } else { None })),
            Got::Reverted => Ok(Got::Reverted),
            Got::Cut => Ok(Got::Cut),
        }
    }
}

fn scoped(end: End) -> End
    ensures { result ≡ scoped end }
{
    match end {
        End::Normal | End::Left => End::Normal,
        End::Broke => End::Broke,
        End::Continued => End::Continued,
    }
}

fn asserted(site: u32, n: i128, w: &mut World) -> Result<Got<End>, NoMemory>
    ensures ran { Ran (asserted site n w.old) result w.new }
    ensures kept { Kept w.old.state w.new.state }
{
    if is_zero(n) {
        return panic_at(site, w);
    }
    Ok(Got::Value(End::Normal))
}

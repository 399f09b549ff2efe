// The values of expressions.

ghost use Rattle.std.specs.Prelude.{◌≡◌, ◌&&◌, IsTrue, OnOk, true, map, pos, length, slice_get, if◌then◌else◌};
ghost use Rattle.std.specs.List.{list_all};
ghost use lib.IntN.{ℤ};
ghost use Rattle.sol_core.specs.Wrapping.{wrapped};
ghost use Rattle.sol_meaning.specs.declared.world.Got.TheVariants as got;
ghost use Rattle.sol_meaning.specs.Frames.{and_then, number_at, array_at};
ghost use Rattle.sol_meaning.specs.Eval.{eval, second_of, operated, arithmetic, compared, truth, is_zero, values_of, at_index, index_in};
ghost use Rattle.sol_eval.specs.Ran.{Ran, Kept};
ghost use Rattle.sol_eval.specs.Framed.{frame_in};
ghost use Rattle.sol_eval.specs.Makes.{Makes};
ghost use Rattle.sol_eval.specs.Sized.{type_sized, expr_sized};

use crate::frames::{Frame, Runner};
use crate::numbers::{compared, is_zero, number_at, operated, truth, wrapped};
use crate::panics::{arithmetic, element_at, length_at};
use chc_nums::{List, NoMemory, Op, Ty};
use sol_core::{Cmp, Expr, PanicSites};
use sol_meaning::{Got, World};
use sqlite_items::Boxed;
use std::alloc::Global;

impl<F: Fn(Global, &Frame, u32, &[i128], &mut World) -> Result<Got<i128>, NoMemory>> Runner<'_, F> {
    /// The value of an expression.
    #[cycle(eval)]
    #[tactic(auto, using(sol_meaning::proofs::Values::values, crate::proofs::Sizes::sized_expressions, crate::proofs::Weights::expressions))]
    pub fn eval(&self, e: &Expr, w: &mut World) -> Result<Got<i128>, NoMemory>
        requires runs { Makes self.now.frame.program.now self.now.frame.level (F.pre self.now.call) (F.post self.now.call) }
        requires sized { IsTrue (expr_sized e.now) }
        ensures ran { Ran (eval (frame_in self.now.frame) e.now w.old) result w.new }
        ensures kept { Kept w.old.state w.new.state }
    {
        match e {
            Expr::Num(n, _) => Ok(Got::Value(*n)),
            Expr::Local(i) => Ok(Got::Value(number_at(w.locals.as_slice(), *i as usize))),
            Expr::Scalar(i) => Ok(Got::Value(number_at(w.state.scalars.as_slice(), *i as usize))),
            Expr::Len(a) => Ok(Got::Value(length_at(w, *a))),
            Expr::Sender => Ok(Got::Value(self.frame.caller.sender)),
            Expr::ElemAt(a, index, site) => self.element(*a, index, *site, w),
            Expr::Arith(op, ty, checked, a, b, panics) => self.arith(
                *op, *ty, *checked, a, b, *panics, w,
            ),
            Expr::Compare(cmp, a, b) => self.compare(*cmp, a, b, w),
            Expr::Not(a) => self.not(a, w),
            Expr::Both(a, b) => self.both(a, b, w),
            Expr::Either(a, b) => self.either(a, b, w),
            Expr::Pick(c, a, b) => self.pick(c, a, b, w),
            Expr::Cast(_, ty, a) => self.cast(*ty, a, w),
            Expr::Call(f, es) => self.eval_call(*f, es.as_slice(), w),
            Expr::MapAt(_, _) => Ok(Got::Reverted),
        }
    }

    #[cycle(eval)]
    fn element(
        &self,
        a: u32,
        index: &Boxed<Expr>,
        site: u32,
        w: &mut World,
    ) -> Result<Got<i128>, NoMemory>
        requires runs { Makes self.now.frame.program.now self.now.frame.level (F.pre self.now.call) (F.post self.now.call) }
        requires sized { IsTrue (expr_sized index.now) }
        ensures ran { Ran (and_then (eval (frame_in self.now.frame) index.now w.old) (λ i v. at_index site (index_in (length (array_at v.state.arrays a)) i) (λ n u. (got.Value (number_at (array_at u.state.arrays a) n), u)) v)) result w.new }
        ensures kept { Kept w.old.state w.new.state }
    {
        match self.eval(index.get(), w)? {
            Got::Value(i) => element_at(a, i, site, w),
            Got::Reverted => Ok(Got::Reverted),
            Got::Cut => Ok(Got::Cut),
        }
    }

    #[cycle(eval)]
    fn not(&self, a: &Boxed<Expr>, w: &mut World) -> Result<Got<i128>, NoMemory>
        requires runs { Makes self.now.frame.program.now self.now.frame.level (F.pre self.now.call) (F.post self.now.call) }
        requires sized { IsTrue (expr_sized a.now) }
        ensures ran { Ran (and_then (eval (frame_in self.now.frame) a.now w.old) (λ x v. (got.Value (truth (is_zero x)), v))) result w.new }
        ensures kept { Kept w.old.state w.new.state }
    {
        match self.eval(a.get(), w)? {
            Got::Value(x) => Ok(Got::Value(truth(is_zero(x)))),
            Got::Reverted => Ok(Got::Reverted),
            Got::Cut => Ok(Got::Cut),
        }
    }

    #[cycle(eval)]
    fn cast(&self, ty: Ty, a: &Boxed<Expr>, w: &mut World) -> Result<Got<i128>, NoMemory>
        requires runs { Makes self.now.frame.program.now self.now.frame.level (F.pre self.now.call) (F.post self.now.call) }
        requires sized { IsTrue (type_sized ty && expr_sized a.now) }
        ensures ran { Ran (and_then (eval (frame_in self.now.frame) a.now w.old) (λ x v. (got.Value (wrapped ty x), v))) result w.new }
        ensures kept { Kept w.old.state w.new.state }
    {
        match self.eval(a.get(), w)? {
            Got::Value(x) => Ok(Got::Value(wrapped(ty, x))),
            Got::Reverted => Ok(Got::Reverted),
            Got::Cut => Ok(Got::Cut),
        }
    }

    #[cycle(eval)]
    fn both(&self, a: &Boxed<Expr>, b: &Boxed<Expr>, w: &mut World) -> Result<Got<i128>, NoMemory>
        requires runs { Makes self.now.frame.program.now self.now.frame.level (F.pre self.now.call) (F.post self.now.call) }
        requires sized { IsTrue (expr_sized a.now && expr_sized b.now) }
        ensures ran { Ran (and_then (eval (frame_in self.now.frame) a.now w.old) (λ x v. if is_zero x then (got.Value (pos 0), v) else eval (frame_in self.now.frame) b.now v)) result w.new }
        ensures kept { Kept w.old.state w.new.state }
    {
        match self.eval(a.get(), w)? {
            Got::Value(x) => if is_zero(x) {
                Ok(Got::Value(0))
            } else {
                self.eval(b.get(), w)
            },
            Got::Reverted => Ok(Got::Reverted),
            Got::Cut => Ok(Got::Cut),
        }
    }

    #[cycle(eval)]
    fn either(&self, a: &Boxed<Expr>, b: &Boxed<Expr>, w: &mut World) -> Result<Got<i128>, NoMemory>
        requires runs { Makes self.now.frame.program.now self.now.frame.level (F.pre self.now.call) (F.post self.now.call) }
        requires sized { IsTrue (expr_sized a.now && expr_sized b.now) }
        ensures ran { Ran (and_then (eval (frame_in self.now.frame) a.now w.old) (λ x v. if is_zero x then eval (frame_in self.now.frame) b.now v else (got.Value (pos 1), v))) result w.new }
        ensures kept { Kept w.old.state w.new.state }
    {
        match self.eval(a.get(), w)? {
            Got::Value(x) => if is_zero(x) {
                self.eval(b.get(), w)
            } else {
                Ok(Got::Value(1))
            },
            Got::Reverted => Ok(Got::Reverted),
            Got::Cut => Ok(Got::Cut),
        }
    }

    #[cycle(eval)]
    fn pick(
        &self,
        c: &Boxed<Expr>,
        a: &Boxed<Expr>,
        b: &Boxed<Expr>,
        w: &mut World,
    ) -> Result<Got<i128>, NoMemory>
        requires runs { Makes self.now.frame.program.now self.now.frame.level (F.pre self.now.call) (F.post self.now.call) }
        requires sized { IsTrue (expr_sized c.now && (expr_sized a.now && expr_sized b.now)) }
        ensures ran { Ran (and_then (eval (frame_in self.now.frame) c.now w.old) (λ x v. if is_zero x then eval (frame_in self.now.frame) b.now v else eval (frame_in self.now.frame) a.now v)) result w.new }
        ensures kept { Kept w.old.state w.new.state }
    {
        match self.eval(c.get(), w)? {
            Got::Value(x) => if is_zero(x) {
                self.eval(b.get(), w)
            } else {
                self.eval(a.get(), w)
            },
            Got::Reverted => Ok(Got::Reverted),
            Got::Cut => Ok(Got::Cut),
        }
    }

    #[cycle(eval)]
    fn compare(
        &self,
        cmp: Cmp,
        a: &Boxed<Expr>,
        b: &Boxed<Expr>,
        w: &mut World,
    ) -> Result<Got<i128>, NoMemory>
        requires runs { Makes self.now.frame.program.now self.now.frame.level (F.pre self.now.call) (F.post self.now.call) }
        requires sized { IsTrue (expr_sized a.now && expr_sized b.now) }
        ensures ran { Ran (and_then (eval (frame_in self.now.frame) a.now w.old) (λ x v. and_then (eval (frame_in self.now.frame) b.now v) (λ y u. (got.Value (truth (compared cmp x y)), u)))) result w.new }
        ensures kept { Kept w.old.state w.new.state }
    {
        match self.eval(a.get(), w)? {
            Got::Value(x) => self.compare_to(cmp, x, b, w),
            Got::Reverted => Ok(Got::Reverted),
            Got::Cut => Ok(Got::Cut),
        }
    }

    #[cycle(eval)]
    fn compare_to(
        &self,
        cmp: Cmp,
        x: i128,
        b: &Boxed<Expr>,
        w: &mut World,
    ) -> Result<Got<i128>, NoMemory>
        requires runs { Makes self.now.frame.program.now self.now.frame.level (F.pre self.now.call) (F.post self.now.call) }
        requires sized { IsTrue (expr_sized b.now) }
        ensures ran { Ran (and_then (eval (frame_in self.now.frame) b.now w.old) (λ y u. (got.Value (truth (compared cmp x y)), u))) result w.new }
        ensures kept { Kept w.old.state w.new.state }
    {
        match self.eval(b.get(), w)? {
            Got::Value(y) => Ok(Got::Value(truth(compared(cmp, x, y)))),
            Got::Reverted => Ok(Got::Reverted),
            Got::Cut => Ok(Got::Cut),
        }
    }

    #[cycle(eval)]
    fn arith(
        &self,
        op: Op,
        ty: Ty,
        checked: bool,
        a: &Boxed<Expr>,
        b: &Boxed<Expr>,
        panics: PanicSites,
        w: &mut World,
    ) -> Result<Got<i128>, NoMemory>
        requires runs { Makes self.now.frame.program.now self.now.frame.level (F.pre self.now.call) (F.post self.now.call) }
        requires sized { IsTrue (type_sized ty && (expr_sized a.now && expr_sized b.now)) }
        ensures ran { Ran (and_then (eval (frame_in self.now.frame) a.now w.old) (λ x v. and_then (second_of op (eval (frame_in self.now.frame) b.now) v) (λ y u. arithmetic (operated checked op ty x y) panics u))) result w.new }
        ensures kept { Kept w.old.state w.new.state }
    {
        match self.eval(a.get(), w)? {
            Got::Value(x) => self.arith_to(op, ty, checked, x, b, panics, w),
            Got::Reverted => Ok(Got::Reverted),
            Got::Cut => Ok(Got::Cut),
        }
    }

    #[cycle(eval)]
    fn arith_to(
        &self,
        op: Op,
        ty: Ty,
        checked: bool,
        x: i128,
        b: &Boxed<Expr>,
        panics: PanicSites,
        w: &mut World,
    ) -> Result<Got<i128>, NoMemory>
        requires runs { Makes self.now.frame.program.now self.now.frame.level (F.pre self.now.call) (F.post self.now.call) }
        requires sized { IsTrue (type_sized ty && expr_sized b.now) }
        ensures ran { Ran (and_then (second_of op (eval (frame_in self.now.frame) b.now) w.old) (λ y u. arithmetic (operated checked op ty x y) panics u)) result w.new }
        ensures kept { Kept w.old.state w.new.state }
    {
        match self.second_of(op, b, w)? {
            Got::Value(y) => arithmetic(operated(checked, op, ty, x, y), panics, w),
            Got::Reverted => Ok(Got::Reverted),
            Got::Cut => Ok(Got::Cut),
        }
    }

    // A negation reads its first operand alone.
    #[cycle(eval)]
    fn second_of(&self, op: Op, b: &Boxed<Expr>, w: &mut World) -> Result<Got<i128>, NoMemory>
        requires runs { Makes self.now.frame.program.now self.now.frame.level (F.pre self.now.call) (F.post self.now.call) }
        requires sized { IsTrue (expr_sized b.now) }
        ensures ran { Ran (second_of op (eval (frame_in self.now.frame) b.now) w.old) result w.new }
        ensures kept { Kept w.old.state w.new.state }
    {
        match op {
            Op::Add | Op::Sub | Op::Mul | Op::Div | Op::Rem => self.eval(b.get(), w),
            Op::Neg => Ok(Got::Value(0)),
        }
    }

    #[cycle(eval)]
    pub fn eval_call(&self, f: u32, es: &[Expr], w: &mut World) -> Result<Got<i128>, NoMemory>
        requires runs { Makes self.now.frame.program.now self.now.frame.level (F.pre self.now.call) (F.post self.now.call) }
        requires sized { IsTrue (list_all expr_sized es.now) }
        ensures ran { Ran (and_then (values_of (map (eval (frame_in self.now.frame)) es.now) w.old) (λ args v. (frame_in self.now.frame).level.call (frame_in self.now.frame).caller (slice_get (frame_in self.now.frame).level.program.funs f) args v)) result w.new }
        ensures kept { Kept w.old.state w.new.state }
    {
        match self.eval_all(es, w)? {
            Got::Value(args) => self.make(f, args.as_slice(), w),
            Got::Reverted => Ok(Got::Reverted),
            Got::Cut => Ok(Got::Cut),
        }
    }

    /// The values of expressions, from left to right.
    #[cycle(eval)]
    pub fn eval_all(&self, es: &[Expr], w: &mut World) -> Result<Got<List<i128>>, NoMemory>
        requires runs { Makes self.now.frame.program.now self.now.frame.level (F.pre self.now.call) (F.post self.now.call) }
        requires sized { IsTrue (list_all expr_sized es.now) }
        ensures ran { Ran (values_of (map (eval (frame_in self.now.frame)) es.now) w.old) result w.new }
        ensures kept { Kept w.old.state w.new.state }
    {
        let mut values = List::new(self.alloc);
        for e in es {
            match self.eval(e, w)? {
                Got::Value(n) => values.push(n)?,
                Got::Reverted => return Ok(Got::Reverted),
                Got::Cut => return Ok(Got::Cut),
            }
        }
        Ok(Got::Value(values))
    }

    /// A call of the function at a place.
    pub fn make(&self, f: u32, args: &[i128], w: &mut World) -> Result<Got<i128>, NoMemory>
        requires runs { Makes self.now.frame.program.now self.now.frame.level (F.pre self.now.call) (F.post self.now.call) }
        ensures ran { Ran ((frame_in self.now.frame).level.call (frame_in self.now.frame).caller (slice_get (frame_in self.now.frame).level.program.funs f) args.now w.old) result w.new }
        ensures kept { Kept w.old.state w.new.state }
        ensures locals { OnOk result (w.new.locals ≡ w.old.locals) }
    {
        (self.call)(self.alloc, &self.frame, f, args, w)
    }
}

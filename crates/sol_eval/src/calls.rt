// Calls of functions.

ghost use Rattle.std.specs.List.{list_all};
ghost use Rattle.std.specs.Prelude.{◌≡◌, IsTrue, IfOk, List, Some, None, slice_get, OnOk};
ghost use lib.IntN.{ℤ};
ghost use Rattle.sol_core.specs.declared.Program.{Program};
ghost use Rattle.sol_core.specs.Doors.{door};
ghost use Rattle.sol_meaning.specs.declared.World.{World};
ghost use Rattle.sol_meaning.specs.Frames.{Caller};
ghost use Rattle.sol_meaning.specs.Exec.{exec_all};
ghost use Rattle.sol_meaning.specs.Calling.{entered, returned, valued, called, calls_at};
ghost use Rattle.sol_eval.specs.Ran.{Ran, Kept};
ghost use Rattle.sol_eval.specs.Framed.{caller_in, frame_in};
ghost use Rattle.sol_eval.specs.Makes.{Makes};
ghost use Rattle.sol_eval.specs.Sized.{fun_sized};

use crate::frames::{Frame, Runner};
use crate::numbers::number_at;
use chc_nums::{List, NoMemory, Ty};
use sol_core::Fun;
use sol_meaning::{Got, World};
use std::alloc::Global;
use std::mem;

/// A call of the function at a place, where there is one.
#[tactic(auto, using(crate::proofs::Levels::levels, crate::proofs::Sizes::body_sized))]
pub fn call(
    alloc: Global,
    frame: &Frame,
    f: u32,
    args: &[i128],
    w: &mut World,
) -> Result<Got<i128>, NoMemory>
    requires { IsTrue (list_all fun_sized frame.now.program.now.funs) }
    ensures ran { Ran (calls_at frame.now.program.now frame.now.level (caller_in frame.now.caller.now) (slice_get frame.now.program.now.funs f) args.now w.old) result w.new }
    ensures kept { Kept w.old.state w.new.state }
    ensures locals { OnOk result (w.new.locals ≡ w.old.locals) }
{
    if frame.level == 0 {
        return Ok(Got::Cut);
    }
    match frame.program.funs.get(f as usize) {
        None => Ok(Got::Reverted),
        Some(fun) => {
            let below = Frame {
                program: frame.program,
                level: frame.level - 1,
                caller: frame.caller,
            };
            Runner {
                alloc,
                frame: below,
                call,
            }
            .enter(fun, args, w)
        }
    }
}

impl<F: Fn(Global, &Frame, u32, &[i128], &mut World) -> Result<Got<i128>, NoMemory>> Runner<'_, F> {
    fn enter(&self, fun: &Fun, args: &[i128], w: &mut World) -> Result<Got<i128>, NoMemory>
        requires runs { Makes self.now.frame.program.now self.now.frame.level (F.pre self.now.call) (F.post self.now.call) }
        requires sized { IsTrue (fun_sized fun.now) }
        ensures ran { Ran (called (frame_in self.now.frame).level (frame_in self.now.frame).caller (Some fun.now) args.now w.old) result w.new }
        ensures kept { Kept w.old.state w.new.state }
        ensures locals { OnOk result (w.new.locals ≡ w.old.locals) }
    {
        if w.turns == 0 {
            return Ok(Got::Cut);
        }
        let locals = locals(self.alloc, fun.locals.as_slice(), args)?;
        let outer = mem::replace(&mut w.locals, locals);
        w.turns -= 1;
        let got = self.run_body(fun, w)?;
        w.locals = outer;
        Ok(got)
    }

    fn run_body(&self, fun: &Fun, w: &mut World) -> Result<Got<i128>, NoMemory>
        requires runs { Makes self.now.frame.program.now self.now.frame.level (F.pre self.now.call) (F.post self.now.call) }
        requires sized { IsTrue (fun_sized fun.now) }
        ensures ran { Ran (valued fun.now (exec_all (frame_in self.now.frame) fun.now.body w.old)) result w.new }
        ensures kept { Kept w.old.state w.new.state }
    {
        match self.exec_all(fun.body.as_slice(), w)? {
            Got::Value(_) => Ok(Got::Value(returned(fun.ret, w))),
            Got::Reverted => Ok(Got::Reverted),
            Got::Cut => Ok(Got::Cut),
        }
    }

    /// A call of the function behind a door, in the frame of a call from outside.
    pub fn call_door(
        &self,
        frame: &Frame,
        d: u32,
        args: &[i128],
        w: &mut World,
    ) -> Result<Got<i128>, NoMemory>
        requires runs { Makes self.now.frame.program.now self.now.frame.level (F.pre self.now.call) (F.post self.now.call) }
        requires program { frame.now.program.now ≡ self.now.frame.program.now }
        requires level { frame.now.level ≡ self.now.frame.level }
        ensures ran { Ran (calls_at self.now.frame.program.now self.now.frame.level (caller_in frame.now.caller.now) (door self.now.frame.program.now d) args.now w.old) result w.new }
        ensures kept { Kept w.old.state w.new.state }
        ensures locals { OnOk result (w.new.locals ≡ w.old.locals) }
    {
        match self.frame.program.doors.get(d as usize) {
            Some(f) => (self.call)(self.alloc, frame, *f, args, w),
            None => Ok(nobody(self.frame.level)),
        }
    }
}

// A call of no function.
#[tactic(auto, using(crate::proofs::Levels::levels))]
fn nobody(level: u32) -> Got<i128>
    ensures { (p : Program) (c : Caller) (args : List ℤ) (w : World) → calls_at p level c None args w ≡ (result, w) }
{
    if level == 0 { Got::Cut } else { Got::Reverted }
}

fn returned(ret: Option<u32>, w: &World) -> i128
    ensures { result ≡ returned ret w.now.locals }
{
    match ret {
        None => 0,
        Some(i) => number_at(w.locals.as_slice(), i as usize),
    }
}

// The arguments, and then zeros.
fn locals(alloc: Global, types: &[Ty], args: &[i128]) -> Result<List<i128>, NoMemory>
    ensures { IfOk result (λ all. all ≡ entered types.now args.now) }
{
    let mut all = Vec::from_slice(alloc, args)?;
    for _type in types {
        all.push(0)?;
    }
    all.truncate(types.len());
    Ok(List::from_vec(all))
}

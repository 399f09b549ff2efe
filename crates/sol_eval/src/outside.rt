// Calls from outside.

ghost use Rattle.std.specs.Prelude.{◌≡◌, OnOk, IfOk};
ghost use Rattle.sol_core.specs.declared.Call.{out-Call};
ghost use Rattle.sol_core.specs.Doors.{door};
ghost use Rattle.sol_meaning.specs.Exec.{call_each, call_once, caller_of, settled};
ghost use Rattle.sol_eval.specs.Ran.{Ran, Kept};
ghost use Rattle.sol_eval.specs.Framed.{frame_in};
ghost use Rattle.sol_eval.specs.Makes.{Makes};

use crate::frames::{Caller, Frame, Runner};
use chc_nums::{List, NoMemory};
use sol_core::Call;
use sol_meaning::{Got, World};
use std::alloc::Global;

impl<F: Fn(Global, &Frame, u32, &[i128], &mut World) -> Result<Got<i128>, NoMemory>> Runner<'_, F> {
    /// Calls from outside one after another, until the run is cut: whether it was.
    pub fn call_each(
        &self,
        is_static: bool,
        calls: &[Call],
        w: &mut World,
    ) -> Result<bool, NoMemory>
        requires runs { Makes self.now.frame.program.now self.now.frame.level (F.pre self.now.call) (F.post self.now.call) }
        ensures ran { Ran (call_each (frame_in self.now.frame).level is_static calls.now w.old) result w.new }
        ensures kept { Kept w.old.state w.new.state }
    {
        for c in calls {
            if self.call_once(is_static, c, w)? {
                return Ok(true);
            }
        }
        Ok(false)
    }

    // Mappings are never written, so what is kept for a revert is the scalars and the arrays.
    #[tactic(auto, using(crate::proofs::Restored::restored))]
    fn call_once(&self, is_static: bool, c: &Call, w: &mut World) -> Result<bool, NoMemory>
        requires runs { Makes self.now.frame.program.now self.now.frame.level (F.pre self.now.call) (F.post self.now.call) }
        ensures ran { Ran (call_once (frame_in self.now.frame).level is_static c.now w.old) result w.new }
        ensures kept { Kept w.old.state w.new.state }
    {
        let scalars = w.state.scalars.copy(self.alloc)?;
        let arrays = copy_arrays(self.alloc, w.state.arrays.as_slice())?;
        let taken = w.taken;
        w.taken = 0;
        let got = self.call_from(is_static, c, w)?;
        w.taken = taken;
        Ok(settle(is_static, scalars, arrays, got, w))
    }

    fn call_from(&self, is_static: bool, c: &Call, w: &mut World) -> Result<Got<i128>, NoMemory>
        requires runs { Makes self.now.frame.program.now self.now.frame.level (F.pre self.now.call) (F.post self.now.call) }
        ensures ran { Ran ((frame_in self.now.frame).level.call (caller_of is_static c.now) (door (frame_in self.now.frame).level.program (out-Call c.now).fun) (out-Call c.now).args w.old) result w.new }
        ensures kept { Kept w.old.state w.new.state }
        ensures locals { OnOk result (w.new.locals ≡ w.old.locals) }
    {
        let caller = Caller {
            sender: c.sender,
            is_static,
            replies: c.replies.as_slice(),
        };
        let frame = Frame {
            program: self.frame.program,
            level: self.frame.level,
            caller: &caller,
        };
        self.call_door(&frame, c.fun, c.args.as_slice(), w)
    }
}

// Arrays that are equal to these.
fn copy_arrays(alloc: Global, arrays: &[List<i128>]) -> Result<List<List<i128>>, NoMemory>
    ensures { IfOk result (λ all. all ≡ arrays.now) }
{
    let mut all = List::new(alloc);
    for array in arrays {
        all.push(array.copy(alloc)?)?;
    }
    Ok(all)
}

// Whether the run is cut, where a call that left the mappings as they were ended so.
fn settle(
    is_static: bool,
    scalars: List<i128>,
    arrays: List<List<i128>>,
    got: Got<i128>,
    w: &mut World,
) -> bool
    ensures ran { settled is_static (record w.old { state = record w.old.state { scalars = scalars; arrays = arrays } }) (got, w.old) ≡ (result, w.new) }
    ensures kept { Kept w.old.state w.new.state }
{
    match got {
        Got::Value(_) => {
            if is_static {
                w.state.scalars = scalars;
                w.state.arrays = arrays;
            }
            false
        }
        Got::Reverted => {
            w.state.scalars = scalars;
            w.state.arrays = arrays;
            false
        }
        Got::Cut => {
            w.state.scalars = scalars;
            w.state.arrays = arrays;
            true
        }
    }
}

// What a deployment does.

ghost use Rattle.std.specs.List.{list_all};
ghost use Rattle.std.specs.Prelude.{◌≡◌, IsTrue, IfOk, map, pos, [], List, slice_get};
ghost use Rattle.sol_meaning.specs.Frames.{and_then};
ghost use Rattle.sol_meaning.specs.Exec.{all_of, ends};
ghost use Rattle.sol_meaning.specs.Run.{zero_state, build_arg, constructed, built, fresh};
ghost use Rattle.sol_eval.specs.Ran.{Ran};
ghost use Rattle.sol_eval.specs.Framed.{frame_in};
ghost use Rattle.sol_eval.specs.Makes.{Makes};
ghost use Rattle.sol_eval.specs.Sized.{build_sized};

use crate::frames::{Frame, Runner};
use crate::numbers::number_at;
use chc_nums::{List, NoMemory, Ty};
use sol_core::{Build, BuildArg, MapTy, MapVal, Program, State};
use sol_meaning::{End, Got, World};
use std::alloc::Global;

/// The world at a deployment.
pub fn fresh(alloc: Global, p: &Program, turns: u32) -> Result<World, NoMemory>
    ensures { IfOk result (λ w. w ≡ fresh p.now turns) }
{
    let state = zero_state(alloc, p)?;
    Ok(World {
        state,
        locals: List::new(alloc),
        taken: 0,
        turns,
        hits: List::new(alloc),
    })
}

fn zero_state(alloc: Global, p: &Program) -> Result<State, NoMemory>
    ensures { IfOk result (λ state. state ≡ zero_state p.now) }
{
    let scalars = zeros(alloc, p.scalars.as_slice())?;
    let maps = empty_maps(alloc, p.maps.as_slice())?;
    let arrays = empty_arrays(alloc, p.arrays.as_slice())?;
    Ok(State {
        scalars,
        maps,
        arrays,
    })
}

fn empty_maps(alloc: Global, types: &[MapTy]) -> Result<List<MapVal>, NoMemory>
    ensures { IfOk result (λ all. all ≡ map (λ t. []) types.now) }
{
    let mut all = List::new(alloc);
    for _type in types {
        all.push(MapVal::new(alloc))?;
    }
    Ok(all)
}

fn zeros(alloc: Global, types: &[Ty]) -> Result<List<i128>, NoMemory>
    ensures { IfOk result (λ all. all ≡ map (λ t. pos 0) types.now) }
{
    let mut all = List::new(alloc);
    for _type in types {
        all.push(0)?;
    }
    Ok(all)
}

fn empty_arrays(alloc: Global, types: &[Ty]) -> Result<List<List<i128>>, NoMemory>
    ensures { IfOk result (λ all. all ≡ map (λ t. []) types.now) }
{
    let mut all = List::new(alloc);
    for _type in types {
        all.push(List::new(alloc))?;
    }
    Ok(all)
}

impl<F: Fn(Global, &Frame, u32, &[i128], &mut World) -> Result<Got<i128>, NoMemory>> Runner<'_, F> {
    /// Each contract's initialisers and constructor, contract by contract.
    pub fn build_all(
        &self,
        given: &[i128],
        builds: &[Build],
        w: &mut World,
    ) -> Result<Got<End>, NoMemory>
        requires runs { Makes self.now.frame.program.now self.now.frame.level (F.pre self.now.call) (F.post self.now.call) }
        requires sized { IsTrue (list_all build_sized builds.now) }
        ensures { Ran (all_of (map (built (frame_in self.now.frame) given.now) builds.now) w.old) result w.new }
    {
        for b in builds {
            match self.build(given, b, w)? {
                Got::Value(End::Normal) => {}
                other => return Ok(other),
            }
        }
        Ok(Got::Value(End::Normal))
    }

    fn build(&self, given: &[i128], b: &Build, w: &mut World) -> Result<Got<End>, NoMemory>
        requires runs { Makes self.now.frame.program.now self.now.frame.level (F.pre self.now.call) (F.post self.now.call) }
        requires sized { IsTrue (build_sized b.now) }
        ensures { Ran (built (frame_in self.now.frame) given.now b.now w.old) result w.new }
    {
        match self.exec_all(b.inits.as_slice(), w)? {
            Got::Value(_) => self.construct(given, b, w),
            Got::Reverted => Ok(Got::Reverted),
            Got::Cut => Ok(Got::Cut),
        }
    }

    fn construct(&self, given: &[i128], b: &Build, w: &mut World) -> Result<Got<End>, NoMemory>
        requires runs { Makes self.now.frame.program.now self.now.frame.level (F.pre self.now.call) (F.post self.now.call) }
        ensures { Ran (constructed (frame_in self.now.frame) given.now b.now.fun b.now.args w.old) result w.new }
    {
        match b.fun {
            None => Ok(Got::Value(End::Normal)),
            Some(f) => {
                let args = build_args(self.alloc, given, b.args.as_slice())?;
                self.construct_by(f, args.as_slice(), w)
            }
        }
    }

    fn construct_by(&self, f: u32, args: &[i128], w: &mut World) -> Result<Got<End>, NoMemory>
        requires runs { Makes self.now.frame.program.now self.now.frame.level (F.pre self.now.call) (F.post self.now.call) }
        ensures { Ran (and_then ((frame_in self.now.frame).level.call (frame_in self.now.frame).caller (slice_get (frame_in self.now.frame).level.program.funs f) args.now w.old) (λ n. ends)) result w.new }
    {
        match self.make(f, args, w)? {
            Got::Value(_) => Ok(Got::Value(End::Normal)),
            Got::Reverted => Ok(Got::Reverted),
            Got::Cut => Ok(Got::Cut),
        }
    }
}

fn build_args(alloc: Global, given: &[i128], args: &[BuildArg]) -> Result<List<i128>, NoMemory>
    ensures { IfOk result (λ all. all ≡ map (build_arg given.now) args.now) }
{
    let mut all = List::new(alloc);
    for arg in args {
        all.push(build_arg(given, *arg))?;
    }
    Ok(all)
}

fn build_arg(given: &[i128], arg: BuildArg) -> i128
    ensures { result ≡ build_arg given.now arg }
{
    match arg {
        BuildArg::Num(n) => n,
        BuildArg::Param(i) => number_at(given, i as usize),
    }
}

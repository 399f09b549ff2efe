// Whether a script fits a program.

ghost use Rattle.std.specs.Prelude.{◌≡◌, ◌↔◌, ◌<◌, ◌^◌, ◌+◌, IsTrue, IfOk, Some, None, length};
ghost use Rattle.std.specs.Option.{option_map};
ghost use Rattle.std.specs.List.{list_all};
ghost use Rattle.sol_core.specs.declared.script.Call.{out-Call};
ghost use Rattle.sol_core.specs.declared.script.Script.{Script as AnyScript};
ghost use Rattle.sol_core.specs.declared.program.Program.{Program as AnyProgram};
ghost use Rattle.sol_core.specs.Values.{is_type};
ghost use Rattle.sol_core.specs.Doors.{door, params_of};
ghost use Rattle.sol_core.specs.Fits.{Fits};
ghost use Rattle.sol_core.specs.Formed.{formed, are_params};
ghost use Rattle.sol_core.specs.ScriptFaults.{visits, visits_of, call_visits, reply_visits, replies_visits, fault_with, fault_for, first_fault, IsFirst};

use crate::doors::{door, params_of};
use crate::program::Program;
use crate::script::{Call, Reply, Script};
use crate::values::{is_sender, takes};
use chc_nums::Ty;

/// Why a script doesn't fit a program. The number is that of the deployment, 0, or of a call in preorder.
#[derive(Clone, Copy, Debug, PartialEq, Eq)]
pub enum ScriptFault {
    /// There is no door of the call's number.
    NoFunction { at: u32 },
    /// The sender is the zero address.
    SenderZero { at: u32 },
    /// There are fewer or more arguments than parameters.
    ArgCount { at: u32 },
    /// The sender is no address, or an argument lies outside its type.
    ArgRange { at: u32 },
}

fn check_with(types: &[Ty], sender: i128, args: &[i128], at: u32) -> Result<(), ScriptFault>
    requires { IsTrue (list_all is_type types.now) }
    ensures { IsFirst (fault_with at types.now sender args.now) result }
{
    if sender == 0 {
        return Err(ScriptFault::SenderZero { at });
    }
    if args.len() != types.len() {
        return Err(ScriptFault::ArgCount { at });
    }
    if is_sender(sender) && takes(types, args) {
        Ok(())
    } else {
        Err(ScriptFault::ArgRange { at })
    }
}

// A call alone, without those in its replies.
#[tactic(auto, using(crate::proofs::Typed::params_typed))]
fn check_own(p: &Program, call: &Call, at: u32) -> Result<(), ScriptFault>
    requires { IsTrue (are_params p.now) }
    ensures { IsFirst (fault_for at (option_map params_of (door p.now (out-Call call.now).fun)) (out-Call call.now).sender (out-Call call.now).args) result }
{
    match door(p, call.fun) {
        None => Err(ScriptFault::NoFunction { at }),
        Some(fun) => check_with(params_of(fun), call.sender, call.args.as_slice(), at),
    }
}

#[cycle(check_call)]
#[tactic(auto, using(crate::proofs::Visiting::visiting))]
fn check_call(call: &Call, p: &Program, at: &mut u32) -> Result<(), ScriptFault>
    requires params { IsTrue (are_params p.now) }
    requires few { at.old + length (call_visits p.now call.now) < 2 ^ 32 }
    ensures first { IsFirst (first_fault at.old (call_visits p.now call.now)) result }
    ensures count { IfOk result (λ u. at.new ≡ at.old + length (call_visits p.now call.now)) }
{
    check_own(p, call, *at)?;
    *at += 1;
    check_replies(call.replies.as_slice(), p, at)
}

#[cycle(check_call)]
#[tactic(auto, using(crate::proofs::Visiting::visiting))]
fn check_replies(replies: &[Reply], p: &Program, at: &mut u32) -> Result<(), ScriptFault>
    requires params { IsTrue (are_params p.now) }
    requires few { at.old + length (replies_visits p.now replies.now) < 2 ^ 32 }
    ensures first { IsFirst (first_fault at.old (replies_visits p.now replies.now)) result }
    ensures count { IfOk result (λ u. at.new ≡ at.old + length (replies_visits p.now replies.now)) }
{
    for reply in replies {
        check_reply(reply, p, at)?;
    }
    Ok(())
}

#[cycle(check_call)]
#[tactic(auto, using(crate::proofs::Visiting::visiting))]
fn check_reply(reply: &Reply, p: &Program, at: &mut u32) -> Result<(), ScriptFault>
    requires params { IsTrue (are_params p.now) }
    requires few { at.old + length (reply_visits p.now reply.now) < 2 ^ 32 }
    ensures first { IsFirst (first_fault at.old (reply_visits p.now reply.now)) result }
    ensures count { IfOk result (λ u. at.new ≡ at.old + length (reply_visits p.now reply.now)) }
{
    check_calls(reply.calls.as_slice(), p, at)
}

#[cycle(check_call)]
#[tactic(auto, using(crate::proofs::Visiting::visiting))]
fn check_calls(calls: &[Call], p: &Program, at: &mut u32) -> Result<(), ScriptFault>
    requires params { IsTrue (are_params p.now) }
    requires few { at.old + length (visits_of p.now calls.now) < 2 ^ 32 }
    ensures first { IsFirst (first_fault at.old (visits_of p.now calls.now)) result }
    ensures count { IfOk result (λ u. at.new ≡ at.old + length (visits_of p.now calls.now)) }
{
    for call in calls {
        check_call(call, p, at)?;
    }
    Ok(())
}

/// Whether a script of fewer than 2^32 - 1 calls fits a program, or the first of its visits that doesn't: the deployment,
/// and then the calls in preorder. Within one visit the faults are told in the order in which they are listed. The program's
/// parameters have types of sizes that Solidity has, as those of every formed program do.
#[tactic(auto, using(crate::proofs::Visiting::visiting, crate::proofs::Typed::deployment_typed))]
pub fn check_script(p: &Program, s: &Script) -> Result<(), ScriptFault>
    requires params { IsTrue (are_params p.now) }
    requires few { length (visits p.now s.now) < 2 ^ 32 }
    ensures { IsFirst (first_fault 0 (visits p.now s.now)) result }
{
    check_with(p.params.as_slice(), s.sender, s.args.as_slice(), 0)?;
    let mut at = 1;
    check_calls(s.calls.as_slice(), p, &mut at)
}

/// A script fits exactly where none of its visits has a fault.
#[tactic(auto, using(crate::proofs::Fitting::fits_where))]
pub fn fitting_law()
    ensures { (p : AnyProgram) (s : AnyScript) → Fits p s ↔ (first_fault 0 (visits p s) ≡ None) }
{}

/// The parameters of a formed program have types of sizes that Solidity has.
#[tactic(auto, using(crate::proofs::Typed::formed_params))]
pub fn params_law()
    ensures { (p : AnyProgram) → IsTrue (formed p) → IsTrue (are_params p) }
{}

// The lines of a script.

ghost use Rattle.std.specs.Prelude.{◌≡◌, ◌++◌, map, IfOk, OnOk};
ghost use Rattle.sol_script.specs.ScriptText.{joined, call_lines, reply_lines, script_lines};
ghost use Rattle.sol_script.specs.Told.{script_text, text_of};

use crate::words::{answer_line, call_line, deploy_line, ended};
use chc_nums::{List, Name, NoMemory};
use sol_core::{Call, Program, Reply, Script};
use std::alloc::Global;

/// The text of a script, line by line.
pub fn lines(alloc: Global, p: &Program, s: &Script) -> Result<List<Name>, NoMemory>
    ensures { IfOk result (λ all. all ≡ script_lines p.now s.now) }
{
    let mut all = List::new(alloc);
    all.push(deploy_line(alloc, s)?)?;
    add_calls(alloc, s.calls.as_slice(), p, &mut all)?;
    all.push(ended(alloc, "end")?)?;
    Ok(all)
}

// Lines one after another.
fn joined(alloc: Global, lines: &[Name]) -> Result<Vec<u8>, NoMemory>
    ensures { IfOk result (λ text. text.items ≡ text_of lines.now) }
{
    let mut text = Vec::new(alloc);
    for line in lines {
        text.extend_from_slice(line.as_str().as_bytes())?;
    }
    Ok(text)
}

/// The text of a script: its lines, one after another.
#[tactic(auto, unfolding(crate::specs::Told::script_text))]
pub fn print(alloc: Global, p: &Program, s: &Script) -> Result<Vec<u8>, NoMemory>
    ensures { IfOk result (λ text. text.items ≡ script_text p.now s.now) }
{
    let all = lines(alloc, p, s)?;
    joined(alloc, all.as_slice())
}

#[cycle(lines)]
fn add_calls(
    alloc: Global,
    calls: &[Call],
    p: &Program,
    all: &mut List<Name>,
) -> Result<(), NoMemory>
    ensures { OnOk result (all.new ≡ all.old ++ joined (map (call_lines p.now) calls.now)) }
{
    for call in calls {
        add_call(alloc, call, p, all)?;
    }
    Ok(())
}

#[cycle(lines)]
#[tactic(auto, using(std::proofs::lemmas::Grind::common_steps, crate::proofs::Layers::layers))]
fn add_call(alloc: Global, call: &Call, p: &Program, all: &mut List<Name>) -> Result<(), NoMemory>
    ensures { OnOk result (all.new ≡ all.old ++ call_lines p.now call.now) }
{
    all.push(call_line(alloc, p, call.fun, &call.sender, call.args.as_slice())?)?;
    add_replies(alloc, call.replies.as_slice(), p, all)
}

#[cycle(lines)]
fn add_replies(
    alloc: Global,
    replies: &[Reply],
    p: &Program,
    all: &mut List<Name>,
) -> Result<(), NoMemory>
    ensures { OnOk result (all.new ≡ all.old ++ joined (map (reply_lines p.now) replies.now)) }
{
    for reply in replies {
        add_reply(alloc, reply, p, all)?;
    }
    Ok(())
}

#[cycle(lines)]
#[tactic(auto, using(std::proofs::lemmas::Grind::common_steps, crate::proofs::Layers::layers))]
fn add_reply(
    alloc: Global,
    reply: &Reply,
    p: &Program,
    all: &mut List<Name>,
) -> Result<(), NoMemory>
    ensures { OnOk result (all.new ≡ all.old ++ reply_lines p.now reply.now) }
{
    all.push(ended(alloc, "reply")?)?;
    add_calls(alloc, reply.calls.as_slice(), p, all)?;
    all.push(answer_line(alloc, &reply.answer)?)
}

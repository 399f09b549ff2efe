// Copies of scripts.

ghost use Rattle.std.specs.Prelude.{◌≡◌, IfOk};

use crate::script::{Call, Reply, Script};
use chc_nums::{List, NoMemory};
use sqlite_items::Items;
use std::alloc::Global;

impl Script {
    /// A script that is equal to this one.
    pub fn copy(&self, alloc: Global) -> Result<Script, NoMemory>
        ensures { IfOk result (λ s. s ≡ self.now) }
    {
        Ok(Script {
            sender: self.sender,
            args: self.args.copy(alloc)?,
            calls: copy_calls(alloc, self.calls.as_slice())?,
        })
    }
}

fn copy_calls(alloc: Global, calls: &[Call]) -> Result<List<Call>, NoMemory>
    ensures { IfOk result (λ all. all ≡ calls.now) }
{
    let mut all = List::new(alloc);
    for call in calls {
        all.push(copy_call(alloc, call)?)?;
    }
    Ok(all)
}

#[cycle(copy_call)]
fn copy_call(alloc: Global, call: &Call) -> Result<Call, NoMemory>
    ensures { IfOk result (λ c. c ≡ call.now) }
{
    Ok(Call {
        fun: call.fun,
        sender: call.sender,
        args: call.args.copy(alloc)?,
        replies: copy_replies(alloc, call.replies.as_slice())?,
    })
}

#[cycle(copy_call)]
fn copy_replies(alloc: Global, replies: &[Reply]) -> Result<Items<Reply>, NoMemory>
    ensures { IfOk result (λ all. all ≡ replies.now) }
{
    let mut all = Items::new(alloc);
    for reply in replies {
        all.push(copy_reply(alloc, reply)?)?;
    }
    Ok(all)
}

#[cycle(copy_call)]
fn copy_reply(alloc: Global, reply: &Reply) -> Result<Reply, NoMemory>
    ensures { IfOk result (λ r. r ≡ reply.now) }
{
    Ok(Reply {
        calls: copy_nested(alloc, reply.calls.as_slice())?,
        answer: reply.answer,
    })
}

#[cycle(copy_call)]
fn copy_nested(alloc: Global, calls: &[Call]) -> Result<Items<Call>, NoMemory>
    ensures { IfOk result (λ all. all ≡ calls.now) }
{
    let mut all = Items::new(alloc);
    for call in calls {
        all.push(copy_call(alloc, call)?)?;
    }
    Ok(all)
}

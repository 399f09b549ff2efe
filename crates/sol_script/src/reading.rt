// A script as far as its text is read.

ghost use Rattle.std.specs.Prelude.{◌≡◌, ◌++◌, [], option_to_list, IfOk};
ghost use Rattle.sol_script.specs.Reading.{apart, plain_call, replied, begun, calls_of, with_call, with_level, with_answer, opened, answered, is_end, line_read, Reads};

use crate::fault::ScriptTextFault;
use crate::line::Line;
use chc_nums::{List, NoMemory};
use sol_core::{Answer, Call, Reply};
use sqlite_items::Items;
use std::alloc::Global;

/// The greatest number of replies that are open at one line.
const DEPTH_LIMIT: usize = 128;

/// The calls of a level, to the last of which a reply is open.
#[derive(Drop)]
pub struct Level {
    pub before: List<Call>,
    pub last: Call,
}

/// A deployment and what is called after it: the levels to whose last calls replies are open, from the outermost on, and the
/// calls of the innermost level, the last of them apart.
#[derive(Drop)]
pub struct Reading {
    pub sender: i128,
    pub args: List<i128>,
    pub levels: List<Level>,
    pub calls: List<Call>,
    pub last: Option<Call>,
}

/// A deployment, and nothing after it.
pub fn begun(alloc: Global, sender: i128, args: List<i128>) -> Reading
    ensures { result ≡ begun sender args }
{
    Reading {
        sender,
        args,
        levels: List::new(alloc),
        calls: List::new(alloc),
        last: None,
    }
}

/// Some calls and one more, where there is one.
pub fn with_last(calls: List<Call>, last: Option<Call>) -> Result<List<Call>, NoMemory>
    ensures { IfOk result (λ all. all ≡ calls ++ option_to_list last) }
{
    let mut calls = calls;
    if let Some(call) = last {
        calls.push(call)?;
    }
    Ok(calls)
}

fn with_call(reading: Reading, call: Call) -> Result<Reading, NoMemory>
    ensures { IfOk result (λ r. r ≡ with_call reading call) }
{
    let Reading {
        sender,
        args,
        levels,
        calls,
        last,
    } = reading;
    let calls = with_last(calls, last)?;
    Ok(Reading {
        sender,
        args,
        levels,
        calls,
        last: Some(call),
    })
}

// A call with one reply more.
fn replied(call: Call, reply: Reply) -> Result<Call, NoMemory>
    ensures { IfOk result (λ c. c ≡ replied call reply) }
{
    let Call {
        fun,
        sender,
        args,
        replies,
    } = call;
    let mut replies = replies;
    replies.push(reply)?;
    Ok(Call {
        fun,
        sender,
        args,
        replies,
    })
}

fn opened(alloc: Global, n: u32, reading: Reading) -> Result<Reading, ScriptTextFault>
    ensures { Reads (opened n reading reading.last) result }
{
    let Reading {
        sender,
        args,
        levels,
        calls,
        last,
    } = reading;
    let Some(call) = last else {
        return Err(ScriptTextFault::BadLine { line: n });
    };
    if levels.len() >= DEPTH_LIMIT {
        return Err(ScriptTextFault::TooDeep { line: n });
    }
    let mut levels = levels;
    levels.push(Level {
        before: calls,
        last: call,
    })?;
    Ok(Reading {
        sender,
        args,
        levels,
        calls: List::new(alloc),
        last: None,
    })
}

// The levels are those outside the one that is closed.
fn with_answer(reading: Reading, level: Level, answer: Answer) -> Result<Reading, NoMemory>
    ensures { IfOk result (λ r. r ≡ with_answer reading (reading.levels, level) answer) }
{
    let Reading {
        sender,
        args,
        levels,
        calls,
        last,
    } = reading;
    let Level { before, last: call } = level;
    let calls = Items::from_vec(with_last(calls, last)?.into_vec());
    let call = replied(call, Reply { calls, answer })?;
    Ok(Reading {
        sender,
        args,
        levels,
        calls: before,
        last: Some(call),
    })
}

#[tactic(auto, using(crate::proofs::Steps::answers))]
fn answered(n: u32, reading: Reading, answer: Answer) -> Result<Reading, ScriptTextFault>
    ensures { Reads (answered n reading answer (apart reading.levels)) result }
{
    let mut reading = reading;
    match reading.levels.pop() {
        None => Err(ScriptTextFault::BadLine { line: n }),
        Some(level) => Ok(with_answer(reading, level, answer)?),
    }
}

/// Whether a line ends the script.
pub fn is_end(line: &Line) -> bool
    ensures { result ≡ is_end line.now }
{
    match line {
        Line::End => true,
        Line::Deploy(..) | Line::Call(..) | Line::Reply | Line::Answer(_) => false,
    }
}

/// What a line of a number says is done, after the deployment and before the end.
pub fn line_read(
    alloc: Global,
    n: u32,
    reading: Reading,
    line: Line,
) -> Result<Reading, ScriptTextFault>
    ensures { Reads (line_read n reading line) result }
{
    match line {
        Line::Deploy(_, _) | Line::End => Err(ScriptTextFault::BadLine { line: n }),
        Line::Call(None, _, _) => Err(ScriptTextFault::NoName { line: n }),
        Line::Call(Some(door), sender, args) => {
            let call = Call {
                fun: door,
                sender,
                args,
                replies: Items::new(alloc),
            };
            Ok(with_call(reading, call)?)
        }
        Line::Reply => opened(alloc, n, reading),
        Line::Answer(answer) => answered(n, reading, answer),
    }
}

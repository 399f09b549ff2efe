// The script that a text tells.

ghost use Rattle.std.specs.Prelude.{◌≡◌, ◌<◌, ◌^◌, ◌+◌, ◌-◌, length};
ghost use Rattle.sol_script.specs.Reading.{closed, read_lines, read_first, read_script, Reads};
ghost use Rattle.sol_script.specs.Pieces.{ended, tail};

use crate::cuts::cut;
use crate::fault::ScriptTextFault;
use crate::line::{Line, said};
use crate::reading::{Reading, begun, is_end, line_read, with_last};
use chc_nums::{List, NoMemory};
use sol_core::{Program, Script};
use std::alloc::Global;

// The line `end` of a number, with what stands behind it.
#[tactic(auto, using(crate::proofs::Steps::last_steps))]
fn closed(n: u32, rest: &[u8], reading: Reading) -> Result<Script, ScriptTextFault>
    requires { n < 2 ^ 32 - 1 }
    ensures { Reads (closed n (ended 10 rest.now) (tail 10 rest.now) reading reading.levels) result }
{
    let Reading {
        sender,
        args,
        levels,
        calls,
        last,
    } = reading;
    if !levels.is_empty() {
        return Err(ScriptTextFault::BadLine { line: n });
    }
    if !rest.is_empty() {
        return Err(ScriptTextFault::BadLine { line: n + 1 });
    }
    let calls = with_last(calls, last)?;
    Ok(Script {
        sender,
        args,
        calls,
    })
}

// The lines after the deployment, the first of which has a number.
#[tactic(auto, using(crate::proofs::Steps::steps))]
fn read_lines(
    alloc: Global,
    p: &Program,
    text: &[u8],
    first: u32,
    reading: Reading,
) -> Result<Script, ScriptTextFault>
    requires lines { first + length text.now < 2 ^ 32 }
    requires doors { length p.now.doors < 2 ^ 32 }
    ensures { Reads (read_lines p.now (ended 10 text.now) (tail 10 text.now) first reading) result }
{
    let mut rest = text;
    let mut number = first;
    let mut reading = reading;
    while let Some((line, more)) = cut(rest, b'\n') {
        match said(alloc, p, line)? {
            None => return Err(ScriptTextFault::BadLine { line: number }),
            Some(line) => {
                if is_end(&line) {
                    return closed(number, more, reading);
                }
                match line_read(alloc, number, reading, line) {
                    Ok(next) => reading = next,
                    Err(fault) => return Err(fault),
                }
            }
        }
        rest = more;
        number += 1;
    }
    Err(ScriptTextFault::BadLine { line: number })
}

/// The script that a text of fewer than 2^32 bytes tells of a program with fewer than 2^32 doors, or the first line that is
/// wrong and why.
#[tactic(auto, using(crate::proofs::Steps::first_steps), unfolding(crate::specs::Reading::read_script))]
pub fn read(alloc: Global, text: &[u8], p: &Program) -> Result<Script, ScriptTextFault>
    requires bytes { length text.now < 2 ^ 32 }
    requires doors { length p.now.doors < 2 ^ 32 }
    ensures { Reads (read_script p.now text.now) result }
{
    let Some((line, rest)) = cut(text, b'\n') else {
        return Err(ScriptTextFault::BadLine { line: 1 });
    };
    match said(alloc, p, line)? {
        Some(Line::Deploy(sender, args)) => read_lines(
            alloc,
            p,
            rest,
            2,
            begun(alloc, sender, args),
        ),
        _ => Err(ScriptTextFault::BadLine { line: 1 }),
    }
}

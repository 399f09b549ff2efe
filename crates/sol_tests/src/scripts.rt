// Worked texts: a deployment, a call with two replies, and a call through a door that is not there; texts that tell a
// script, and texts whose first wrong line is known.

use chc_nums::{List, Name, NoMemory};
use sol_core::{Answer, Call, Fun, Program, Reply, Script};
use sol_script::{ScriptTextFault, lines, print, read};
use sqlite_items::Items;
use std::alloc::Global;
use std::test::Fail;

fn functions(alloc: Global) -> Result<List<Fun>, NoMemory> {
    let mut funs = List::new(alloc);
    funs.push(Fun {
        name: Name::from_string(String::from_str(alloc, "pay")?),
        params: 0,
        locals: List::new(alloc),
        ret: None,
        view: false,
        body: List::new(alloc),
    })?;
    Ok(funs)
}

// A contract with one function, `pay`, behind its only door.
fn program(alloc: Global) -> Result<Program, NoMemory> {
    Ok(Program {
        name: Name::from_string(String::from_str(alloc, "C")?),
        scalars: List::new(alloc),
        maps: List::new(alloc),
        arrays: List::new(alloc),
        funs: functions(alloc)?,
        outs: List::new(alloc),
        params: List::new(alloc),
        builds: List::new(alloc),
        doors: List::from_vec(Vec::from_slice(alloc, &[0])?),
        sites: List::new(alloc),
    })
}

fn numbers(alloc: Global, all: &[i128]) -> Result<List<i128>, NoMemory> {
    Ok(List::from_vec(Vec::from_slice(alloc, all)?))
}

// A call by a sender without arguments and replies.
fn plain(alloc: Global, fun: u32, sender: i128) -> Call {
    Call {
        fun,
        sender,
        args: List::new(alloc),
        replies: Items::from_vec(Vec::new(alloc)),
    }
}

// One that calls the door again and gives a number, and one that fails.
fn replies(alloc: Global) -> Result<Items<Reply>, NoMemory> {
    let mut inner = Items::new(alloc);
    inner.push(plain(alloc, 0, 1))?;
    let mut replies = Items::new(alloc);
    replies.push(Reply {
        calls: inner,
        answer: Answer::Give(Some(-3)),
    })?;
    replies.push(Reply {
        calls: Items::new(alloc),
        answer: Answer::Fail,
    })?;
    Ok(replies)
}

fn calls(alloc: Global) -> Result<List<Call>, NoMemory> {
    let mut calls = List::new(alloc);
    calls.push(Call {
        fun: 0,
        sender: 2,
        args: numbers(alloc, &[7])?,
        replies: replies(alloc)?,
    })?;
    calls.push(plain(alloc, 9, 1))?;
    Ok(calls)
}

fn script(alloc: Global) -> Result<Script, NoMemory> {
    Ok(Script {
        sender: 1,
        args: numbers(alloc, &[-5, 12])?,
        calls: calls(alloc)?,
    })
}

// Whether a copy of the script is told so.
fn is_told(alloc: Global, wanted: &[&str]) -> Result<bool, NoMemory> {
    let copy = script(alloc)?.copy(alloc)?;
    let program = program(alloc)?;
    let told = lines(alloc, &program, &copy)?;
    Ok(
        told.len() == wanted.len()
            && told
                .as_slice()
                .iter()
                .zip(wanted)
                .all(|(line, want)| line.as_str() == *want),
    )
}

#[test]
fn script_is_told_line_by_line(rt: HostRuntime) -> Result<(), Fail> {
    let wanted = [
        "deploy 1 -5 12\n",
        "call pay 2 7\n",
        "reply\n",
        "call pay 1\n",
        "give -3\n",
        "reply\n",
        "fail\n",
        "call  1\n",
        "end\n",
    ];
    let is_right = is_told(rt.alloc(), &wanted)?;
    assert!(rt; is_right);
    Ok(())
}

// What a text that tells a script is read as, printed again.
fn is_read(alloc: Global, text: &str) -> Result<bool, ScriptTextFault> {
    let bytes = text.as_bytes();
    let program = program(alloc)?;
    if bytes.len() > 10_000 || program.doors.len() != 1 {
        return Ok(false);
    }
    let script = read(alloc, bytes, &program)?;
    let again = print(alloc, &program, &script)?;
    Ok(again.as_slice() == bytes)
}

#[test]
fn text_is_read_as_its_script(rt: HostRuntime) -> Result<(), Fail> {
    let texts = [
        "deploy 1\nend\n",
        "deploy 1 -5 0\ncall pay 2 7\nend\n",
        "deploy 1\ncall pay 2 7\nreply\ncall pay 1\nreply\ngive 5\ngive -3\nreply\nfail\ncall pay 3\nend\n",
        "deploy 170141183460469231731687303715884105727 -170141183460469231731687303715884105728\nend\n",
    ];
    for text in texts {
        let is_right = is_read(rt.alloc(), text) == Ok(true);
        assert!(rt; is_right);
    }
    Ok(())
}

#[test]
fn first_wrong_line_is_told(rt: HostRuntime) -> Result<(), Fail> {
    let texts = [
        ("", ScriptTextFault::BadLine { line: 1 }),
        ("call pay 1\nend\n", ScriptTextFault::BadLine { line: 1 }),
        ("deploy 01\nend\n", ScriptTextFault::BadLine { line: 1 }),
        ("deploy -0\nend\n", ScriptTextFault::BadLine { line: 1 }),
        (
            "deploy 170141183460469231731687303715884105728\nend\n",
            ScriptTextFault::BadLine { line: 1 },
        ),
        ("deploy\nend\n", ScriptTextFault::BadLine { line: 1 }),
        ("deploy 1\n", ScriptTextFault::BadLine { line: 2 }),
        ("deploy 1\nend", ScriptTextFault::BadLine { line: 2 }),
        (
            "deploy 1\nreply\nend\n",
            ScriptTextFault::BadLine { line: 2 },
        ),
        (
            "deploy 1\ngive\nend\n",
            ScriptTextFault::BadLine { line: 2 },
        ),
        (
            "deploy 1\ncall  1\nend\n",
            ScriptTextFault::BadLine { line: 2 },
        ),
        (
            "deploy 1\ncall nobody x\nend\n",
            ScriptTextFault::BadLine { line: 2 },
        ),
        (
            "deploy 1\ncall nobody 1\nend\n",
            ScriptTextFault::NoName { line: 2 },
        ),
        ("deploy 1\nend\n\n", ScriptTextFault::BadLine { line: 3 }),
        (
            "deploy 1\ncall pay 2\nreply\nend\n",
            ScriptTextFault::BadLine { line: 4 },
        ),
        (
            "deploy 1\ncall pay 2\nreply\nreply\nend\n",
            ScriptTextFault::BadLine { line: 4 },
        ),
    ];
    for (text, fault) in texts {
        let is_right = is_read(rt.alloc(), text) == Err(fault);
        assert!(rt; is_right);
    }
    Ok(())
}

// The text of so many nested replies.
fn nested(alloc: Global, depth: u32) -> Result<String, ScriptTextFault> {
    let mut text = String::from_str(alloc, "deploy 1\ncall pay 1\n")?;
    for at in 0..depth {
        if at > 0 {
            text.push_str("call pay 1\n")?;
        }
        text.push_str("reply\n")?;
    }
    for _ in 0..depth {
        text.push_str("give\n")?;
    }
    text.push_str("end\n")?;
    Ok(text)
}

fn reads_nested(alloc: Global, depth: u32) -> Result<bool, ScriptTextFault> {
    let text = nested(alloc, depth)?;
    is_read(alloc, text.as_str())
}

#[test]
fn replies_nest_to_the_limit(rt: HostRuntime) -> Result<(), Fail> {
    let most = reads_nested(rt.alloc(), 128) == Ok(true);
    assert!(rt; most);
    let more = reads_nested(rt.alloc(), 129) == Err(ScriptTextFault::TooDeep { line: 259 });
    assert!(rt; more);
    Ok(())
}

// The words of a line.

ghost use Rattle.std.specs.Prelude.{◌≡◌, ◌++◌, IfOk, OnOk, codes, string_bytes};
ghost use Rattle.std.specs.Fmt.{signed_decimal};
ghost use Rattle.sol_core.specs.Doors.{door};
ghost use Rattle.sol_script.specs.ScriptText.{with_numbers, deploy_line, name_of, call_line, value_words, answer_line};

use chc_nums::{Name, NoMemory};
use itoa::Buffer;
use sol_core::{Answer, Program, Script};
use std::alloc::Global;

/// `deploy SENDER ARGUMENTS`
pub fn deploy_line(alloc: Global, s: &Script) -> Result<Name, NoMemory>
    ensures { IfOk result (λ line. line ≡ deploy_line s.now) }
{
    let mut text = String::from_str(alloc, "deploy")?;
    add_number(&mut text, s.sender)?;
    add_numbers(&mut text, s.args.as_slice())?;
    ended_by_line_feed(text)
}

/// `call NAME SENDER ARGUMENTS`
pub fn call_line(
    alloc: Global,
    p: &Program,
    place: u32,
    sender: &i128,
    args: &[i128],
) -> Result<Name, NoMemory>
    ensures { IfOk result (λ line. line ≡ call_line p.now place sender.now args.now) }
{
    let mut text = call_words(alloc, name_at(p, place))?;
    add_number(&mut text, *sender)?;
    add_numbers(&mut text, args)?;
    ended_by_line_feed(text)
}

fn call_words(alloc: Global, name: &str) -> Result<String, NoMemory>
    ensures { IfOk result (λ t. string_bytes t ≡ codes "call " ++ name.now) }
{
    Ok(format!(in alloc; "call {name}")?)
}

/// `give`, `give VALUE` or `fail`
pub fn answer_line(alloc: Global, answer: &Answer) -> Result<Name, NoMemory>
    ensures { IfOk result (λ line. line ≡ answer_line answer.now) }
{
    match answer {
        Answer::Fail => ended(alloc, "fail"),
        Answer::Give(value) => give_line(alloc, value),
    }
}

fn give_line(alloc: Global, value: &Option<i128>) -> Result<Name, NoMemory>
    ensures { IfOk result (λ line. line ≡ value_words value.now ++ codes "\n") }
{
    match value {
        None => ended(alloc, "give"),
        Some(n) => {
            let mut text = String::from_str(alloc, "give")?;
            add_number(&mut text, *n)?;
            ended_by_line_feed(text)
        }
    }
}

/// A line with these words.
pub fn ended(alloc: Global, words: &str) -> Result<Name, NoMemory>
    ensures { IfOk result (λ line. line ≡ words.now ++ codes "\n") }
{
    Ok(Name::from_string(format!(in alloc; "{words}\n")?))
}

// The name of the function behind a door, or nothing where there is none.
fn name_at(p: &Program, place: u32) -> &str
    ensures { result.now ≡ name_of (door p.now place) }
{
    match p.doors.get(place as usize) {
        None => "",
        Some(f) => match p.funs.get(*f as usize) {
            None => "",
            Some(fun) => fun.name.as_str(),
        },
    }
}

// A text that is a line's words, with the line's end behind them.
fn ended_by_line_feed(text: String) -> Result<Name, NoMemory>
    ensures { IfOk result (λ line. line ≡ string_bytes text ++ codes "\n") }
{
    let mut text = text;
    text.push_str("\n")?;
    Ok(Name::from_string(text))
}

fn add_numbers(text: &mut String, numbers: &[i128]) -> Result<(), NoMemory>
    ensures { OnOk result (string_bytes text.new ≡ with_numbers (string_bytes text.old) numbers.now) }
{
    for n in numbers {
        add_number(text, *n)?;
    }
    Ok(())
}

fn add_number(text: &mut String, n: i128) -> Result<(), NoMemory>
    ensures { OnOk result (string_bytes text.new ≡ string_bytes text.old ++ codes " " ++ signed_decimal n) }
{
    let mut buffer = Buffer::new();
    text.push_str(" ")?;
    text.push_str(buffer.format(n))?;
    Ok(())
}

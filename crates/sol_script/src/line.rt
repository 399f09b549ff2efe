// What a line of a script's text says.

ghost use Rattle.std.specs.Prelude.{◌≡◌, ◌<◌, ◌^◌, length, bytes_eq, IfOk};
ghost use Rattle.std.specs.Option.{option_copied};
ghost use Rattle.sol_core.specs.Formed.{named};
ghost use Rattle.sol_script.specs.Lines.{number, numbers, door_named, acting, deployed, called, alone, given, said};
ghost use Rattle.sol_script.specs.Cuts.{pieces_of};

use crate::cuts::first_piece;
use chc_nums::{List, NoMemory};
use itoa::Buffer;
use sol_core::{Answer, Fun, Program};
use std::alloc::Global;

/// What a line says: a deployment or a call with who acts and the arguments, and a call's door where its name has one;
/// that a reply opens; how it is answered; or that the script ends.
#[derive(Drop)]
pub enum Line {
    Deploy(i128, List<i128>),
    Call(Option<u32>, i128, List<i128>),
    Reply,
    Answer(Answer),
    End,
}

// Whether a word is this one.
fn is_word(word: &[u8], other: &str) -> bool
    ensures { result ≡ bytes_eq word.now other.now }
{
    word == other.as_bytes()
}

/// The number that a word spells: decimal, with `-` before a negative one and without leading zeros, in 128 bits.
#[tactic(auto, using(crate::proofs::Numbers::unread_words))]
pub fn number(word: &[u8]) -> Option<i128>
    ensures { result ≡ number word.now }
{
    match str::from_utf8(word) {
        Err(_) => None,
        Ok(text) => spelled(text),
    }
}

#[tactic(auto, using(crate::proofs::Numbers::unread_words))]
fn spelled(word: &str) -> Option<i128>
    ensures { result ≡ number word.now }
{
    match word.parse::<i128>() {
        Err(_) => None,
        Ok(n) => {
            let mut buffer = Buffer::new();
            if buffer.format(n) == word {
                Some(n)
            } else {
                None
            }
        }
    }
}

// The numbers that the words of a text spell, where there are more words.
#[tactic(auto, using(crate::proofs::Several::several))]
fn numbers(alloc: Global, words: Option<&[u8]>) -> Result<Option<List<i128>>, NoMemory>
    ensures { IfOk result (λ all. all ≡ numbers (pieces_of (option_copied words.entry))) }
{
    let mut all = List::new(alloc);
    let mut rest = words;
    while let Some(text) = rest {
        let (word, more) = first_piece(text);
        match number(word) {
            None => return Ok(None),
            Some(n) => all.push(n)?,
        }
        rest = more;
    }
    Ok(Some(all))
}

// Whether there is a function, and it has a name.
fn is_named(fun: Option<&Fun>, name: &[u8]) -> bool
    ensures { result ≡ named name.now (option_copied fun.entry) }
{
    match fun {
        None => false,
        Some(fun) => fun.name.as_str().as_bytes() == name,
    }
}

// The first door with a name.
fn door_named(p: &Program, name: &[u8]) -> Option<u32>
    requires { length p.now.doors < 2 ^ 32 }
    ensures { result ≡ door_named p.now name.now }
{
    let mut at: u32 = 0;
    let mut rest = p.doors.as_slice();
    while let [fun, more @ ..] = rest {
        if is_named(p.funs.get(*fun as usize), name) {
            return Some(at);
        }
        at += 1;
        rest = more;
    }
    None
}

// Who acts, and the arguments, as the words of a text spell them.
fn acting(alloc: Global, words: Option<&[u8]>) -> Result<Option<(i128, List<i128>)>, NoMemory>
    ensures { IfOk result (λ a. a ≡ acting (numbers (pieces_of (option_copied words.entry)))) }
{
    let Some(text) = words else {
        return Ok(None);
    };
    let (word, rest) = first_piece(text);
    let Some(sender) = number(word) else {
        return Ok(None);
    };
    match numbers(alloc, rest)? {
        None => Ok(None),
        Some(args) => Ok(Some((sender, args))),
    }
}

fn deployed(alloc: Global, words: Option<&[u8]>) -> Result<Option<Line>, NoMemory>
    ensures { IfOk result (λ l. l ≡ deployed (acting (numbers (pieces_of (option_copied words.entry))))) }
{
    match acting(alloc, words)? {
        None => Ok(None),
        Some((sender, args)) => Ok(Some(Line::Deploy(sender, args))),
    }
}

fn called(alloc: Global, p: &Program, words: Option<&[u8]>) -> Result<Option<Line>, NoMemory>
    requires { length p.now.doors < 2 ^ 32 }
    ensures { IfOk result (λ l. l ≡ called p.now (pieces_of (option_copied words.entry))) }
{
    let Some(text) = words else {
        return Ok(None);
    };
    let (name, rest) = first_piece(text);
    if name.is_empty() {
        return Ok(None);
    }
    match acting(alloc, rest)? {
        None => Ok(None),
        Some((sender, args)) => Ok(Some(Line::Call(door_named(p, name), sender, args))),
    }
}

// A word that stands alone.
fn alone(line: Line, words: Option<&[u8]>) -> Option<Line>
    ensures { result ≡ alone line (pieces_of (option_copied words.entry)) }
{
    match words {
        None => Some(line),
        Some(_) => None,
    }
}

fn given(words: Option<&[u8]>) -> Option<Line>
    ensures { result ≡ given (pieces_of (option_copied words.entry)) }
{
    let Some(text) = words else {
        return Some(Line::Answer(Answer::Give(None)));
    };
    let (word, None) = first_piece(text) else {
        return None;
    };
    let n = number(word)?;
    Some(Line::Answer(Answer::Give(Some(n))))
}

/// What a line says, where it says something. Its line feed is left out.
#[tactic(auto, unfolding(crate::specs::Lines::said))]
pub fn said(alloc: Global, p: &Program, line: &[u8]) -> Result<Option<Line>, NoMemory>
    requires { length p.now.doors < 2 ^ 32 }
    ensures { IfOk result (λ l. l ≡ said p.now line.now) }
{
    let (word, words) = first_piece(line);
    if is_word(word, "deploy") {
        deployed(alloc, words)
    } else if is_word(word, "call") {
        called(alloc, p, words)
    } else if is_word(word, "reply") {
        Ok(alone(Line::Reply, words))
    } else if is_word(word, "give") {
        Ok(given(words))
    } else if is_word(word, "fail") {
        Ok(alone(Line::Answer(Answer::Fail), words))
    } else if is_word(word, "end") {
        Ok(alone(Line::End, words))
    } else {
        Ok(None)
    }
}

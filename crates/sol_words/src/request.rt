// What the words ask.

ghost use Rattle.std.specs.Prelude.{◌≡◌, IfOk, map, string_bytes};
ghost use Rattle.sol_words.specs.Request.{source_in, source_of, checks, lists, replays, asked, request};

use crate::arguments::{Arguments, read_arguments};
use crate::target::target;
use lists::{Name, NoMemory};
use sol_core::Site;
use std::alloc::Global;

/// The file that is asked of, and the contract in it, where one is named.
#[derive(Drop)]
pub struct Source {
    pub file: Name,
    pub contract: Option<Name>,
}

/// What is asked: the report of a contract, its targets, or what the script of a file shows of a target.
#[derive(Drop)]
pub enum Request {
    Check(Source),
    Targets(Source),
    Replay {
        source: Source,
        script: Name,
        target: Site,
    },
}

impl Request {
    /// The file that is asked of, and the contract.
    pub fn source(&self) -> &Source
        ensures { result.now ≡ source_of self.now }
    {
        match self {
            Request::Check(source) => source,
            Request::Targets(source) => source,
            Request::Replay { source, .. } => source,
        }
    }
}

fn contract_in(alloc: Global, arguments: &Arguments) -> Result<Option<Name>, NoMemory>
    ensures { IfOk result (λ c. c ≡ arguments.now.contract) }
{
    match &arguments.contract {
        None => Ok(None),
        Some(name) => Ok(Some(name.copy(alloc)?)),
    }
}

fn source_in(alloc: Global, file: &Name, arguments: &Arguments) -> Result<Source, NoMemory>
    ensures { IfOk result (λ s. s ≡ source_in file.now arguments.now) }
{
    let file = file.copy(alloc)?;
    let contract = contract_in(alloc, arguments)?;
    Ok(Source { file, contract })
}

fn checks(alloc: Global, arguments: &Arguments) -> Result<Option<Request>, NoMemory>
    ensures { IfOk result (λ r. r ≡ checks arguments.now arguments.now.words) }
{
    let [file] = arguments.words.as_slice() else {
        return Ok(None);
    };
    Ok(Some(Request::Check(source_in(alloc, file, arguments)?)))
}

fn lists(alloc: Global, arguments: &Arguments) -> Result<Option<Request>, NoMemory>
    ensures { IfOk result (λ r. r ≡ lists arguments.now arguments.now.words) }
{
    let [file] = arguments.words.as_slice() else {
        return Ok(None);
    };
    Ok(Some(Request::Targets(source_in(alloc, file, arguments)?)))
}

fn replays(alloc: Global, arguments: &Arguments) -> Result<Option<Request>, NoMemory>
    ensures { IfOk result (λ r. r ≡ replays arguments.now arguments.now.words) }
{
    let [file, script, word] = arguments.words.as_slice() else {
        return Ok(None);
    };
    let Some(target) = target(word.as_str().as_bytes()) else {
        return Ok(None);
    };
    let source = source_in(alloc, file, arguments)?;
    let script = script.copy(alloc)?;
    Ok(Some(Request::Replay {
        source,
        script,
        target,
    }))
}

fn asked(alloc: Global, command: &str, arguments: &Arguments) -> Result<Option<Request>, NoMemory>
    ensures { IfOk result (λ r. r ≡ asked command.now arguments.now) }
{
    if command == "check" {
        checks(alloc, arguments)
    } else if command == "targets" {
        lists(alloc, arguments)
    } else if command == "replay" {
        replays(alloc, arguments)
    } else {
        Ok(None)
    }
}

/// What the words ask, or none where they are of no form that is read.
pub fn read_request(alloc: Global, words: &[String]) -> Result<Option<Request>, NoMemory>
    ensures { IfOk result (λ r. r ≡ request (map string_bytes words.now)) }
{
    let [command, rest @ ..] = words else {
        return Ok(None);
    };
    match read_arguments(alloc, rest)? {
        None => Ok(None),
        Some(arguments) => asked(alloc, command.as_str(), &arguments),
    }
}

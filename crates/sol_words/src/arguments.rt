// The words behind the command.

ghost use Rattle.std.specs.Prelude.{◌≡◌, IfOk, false, map, string_bytes};
ghost use Rattle.sol_words.specs.Arguments.{is_plain, nothing, arguments};

use lists::{List, Name, NoMemory};
use std::alloc::Global;

/// The words that stand by themselves, in order, and the contract that `--contract` names, if it stands there.
#[derive(Drop)]
pub struct Arguments {
    pub words: List<Name>,
    pub contract: Option<Name>,
}

// Whether a word can stand by itself or be an option's value: it isn't empty and doesn't begin with `-`.
fn is_plain(word: &str) -> bool
    ensures { result ≡ is_plain word.now }
{
    match word.as_bytes() {
        [] => false,
        [first, ..] => *first != b'-',
    }
}

/// A word as a name.
fn name(alloc: Global, word: &str) -> Result<Name, NoMemory>
    ensures { IfOk result (λ n. n ≡ word.now) }
{
    Ok(Name::from_string(String::from_str(alloc, word)?))
}

/// What some words behind the command say, or none where one of them is strange.
pub fn read_arguments(alloc: Global, words: &[String]) -> Result<Option<Arguments>, NoMemory>
    ensures { IfOk result (λ a. a ≡ arguments nothing false (map string_bytes words.now)) }
{
    let mut said = Arguments {
        words: List::new(alloc),
        contract: None,
    };
    let mut rest = words;
    while let [word, more @ ..] = rest {
        let word = word.as_str();
        if word == "--contract" {
            let [value, behind @ ..] = more else {
                return Ok(None);
            };
            if said.contract.is_some() || !is_plain(value.as_str()) {
                return Ok(None);
            }
            said.contract = Some(name(alloc, value.as_str())?);
            rest = behind;
        } else {
            if !is_plain(word) {
                return Ok(None);
            }
            said.words.push(name(alloc, word)?)?;
            rest = more;
        }
    }
    Ok(Some(said))
}

// Why a text is refused, and the line that says so.

ghost use Rattle.std.specs.Prelude.{◌≡◌, ◌≤◌, ◌++◌, length, take, drop, codes, IfOk};
ghost use Rattle.sol_driver.specs.Refusals.{place_of_fault, fault_words, placed_line, naming_line, refusal_line};

use chc_nums::{List, MAX_FILE_BYTES, NoMemory};
use sol_lexer::LexFault;
use sol_names::NameFault;
use sol_reader::Lines;
use std::alloc::Global;

/// Why a text is refused.
#[derive(Clone, Copy, Debug, PartialEq, Eq)]
pub enum Refusal {
    /// It has no tokens.
    Lexical(LexFault),
    /// Its tokens have no tree, and the place of one of them is told.
    NoTree { at: u32 },
    /// Its names are at fault, so that no contract is checked.
    Naming(NameFault),
    /// Its tree is that of no contract of the first language.
    NotBuilt,
}

fn place_of_fault(fault: LexFault) -> u32
    ensures { result ≡ place_of_fault fault }
{
    match fault {
        LexFault::BadByte { at } => at,
        LexFault::OpenComment { at } => at,
        LexFault::OpenText { at } => at,
        LexFault::WideNumber { at } => at,
        LexFault::Refused { at, .. } => at,
        LexFault::NoMemory => 0,
    }
}

// So many bytes of a text, from a place on, as far as it goes.
fn part(text: &[u8], at: u32, len: u32) -> &[u8]
    ensures { result.now ≡ take len (drop at text.now) }
{
    let start = (at as usize).min(text.len());
    let rest = &text[start..];
    let len = (len as usize).min(rest.len());
    &rest[..len]
}

fn refused_word(alloc: Global, word: &[u8]) -> Result<List<u8>, NoMemory>
    ensures { IfOk result (λ ws. ws ≡ codes "word " ++ word.now) }
{
    let mut words = Vec::from_slice(alloc, b"word ")?;
    words.extend_from_slice(word)?;
    Ok(List::from_vec(words))
}

fn words_of(alloc: Global, words: &[u8]) -> Result<List<u8>, NoMemory>
    ensures { IfOk result (λ ws. ws ≡ words.now) }
{
    Ok(List::from_vec(Vec::from_slice(alloc, words)?))
}

// What is said of a fault.
fn fault_words(alloc: Global, text: &[u8], fault: LexFault) -> Result<List<u8>, NoMemory>
    ensures { IfOk result (λ ws. ws ≡ fault_words text.now fault) }
{
    match fault {
        LexFault::BadByte { .. } => words_of(alloc, b"bad-byte"),
        LexFault::OpenComment { .. } => words_of(alloc, b"open-comment"),
        LexFault::OpenText { .. } => words_of(alloc, b"open-text"),
        LexFault::WideNumber { .. } => words_of(alloc, b"wide-number"),
        LexFault::Refused { at, len } => refused_word(alloc, part(text, at, len)),
        LexFault::NoMemory => words_of(alloc, b""),
    }
}

// The line of a refusal at a place.
fn placed_line(alloc: Global, text: &[u8], at: u32, words: &[u8]) -> Result<List<u8>, NoMemory>
    requires { length text.now ≤ MAX_FILE_BYTES }
    ensures { IfOk result (λ line. line ≡ placed_line text.now at words.now) }
{
    let lines = Lines::new(alloc, text)?;
    let line = lines.line(at);
    let column = lines.column(at);
    let place = format!(in alloc; "{line}:{column} refused ")?;
    let mut bytes = Vec::from_slice(alloc, place.as_bytes())?;
    bytes.extend_from_slice(words)?;
    bytes.push(b'\n')?;
    Ok(List::from_vec(bytes))
}

// The line of a fault of names.
fn naming_line(alloc: Global, text: &[u8], fault: NameFault) -> Result<List<u8>, NoMemory>
    requires { length text.now ≤ MAX_FILE_BYTES }
    ensures { IfOk result (λ line. line ≡ naming_line text.now fault) }
{
    match fault {
        NameFault::TwiceNamed { at } => placed_line(alloc, text, at, b"named-twice"),
        NameFault::NoContract => words_of(alloc, b"refused no-contract\n"),
        NameFault::UnknownBase { at } => placed_line(alloc, text, at, b"unknown-base"),
        NameFault::NoOrder { at } => placed_line(alloc, text, at, b"no-order"),
        NameFault::Abstract { at } => placed_line(alloc, text, at, b"abstract"),
        NameFault::NoMemory => words_of(alloc, b""),
    }
}

/// The line that tells why a text is refused.
pub fn refusal_line(alloc: Global, text: &[u8], refusal: Refusal) -> Result<List<u8>, NoMemory>
    requires { length text.now ≤ MAX_FILE_BYTES }
    ensures { IfOk result (λ line. line ≡ refusal_line text.now refusal) }
{
    match refusal {
        Refusal::Lexical(fault) => {
            let words = fault_words(alloc, text, fault)?;
            placed_line(alloc, text, place_of_fault(fault), words.as_slice())
        }
        Refusal::NoTree { at } => placed_line(alloc, text, at, b"no-tree"),
        Refusal::Naming(fault) => naming_line(alloc, text, fault),
        Refusal::NotBuilt => words_of(alloc, b"refused not-built\n"),
    }
}

// The scan.

ghost use Rattle.std.specs.Prelude.{◌≡◌, ◌≢◌, ◌⊎◌, ◌+◌, ◌<◌, ◌≤◌, ◌++◌, length, true, is_ok, IfErr, IfOk, List, ℕ, Ok, Err, Result, Some, option_to_list, if◌then◌else◌};
ghost use Rattle.std.specs.Str.{IsUtf8};
ghost use Rattle.chc_nums.specs.declared.limits.TheConstants.{MAX_FILE_BYTES};
ghost use Rattle.sol_tree.specs.declared.token.Token.{Token};
ghost use Rattle.sol_lexer.specs.Tokens.{LexicalFault, Tokenizes};
ghost use Rattle.sol_lexer.specs.Steps.{Says, Steps, IsFault};
ghost use Rattle.sol_lexer.specs.declared.lexer.LexFault.{LexFault};

use crate::cut::{Cut, first_cut};
use chc_nums::{Name, NoMemory};
use sol_tree::{Token, TokenKind};
use std::alloc::{AllocError, AllocFailed, Global};
use thiserror::Error;

/// Why a text has no tokens. A place counts bytes from 0.
#[derive(Clone, Copy, Debug, PartialEq, Eq, Error)]
pub enum LexFault {
    /// A byte that may not stand there, or the end of the text where a digit must follow.
    #[error("a byte may not stand at place {at}, or a digit must follow there")]
    BadByte { at: u32 },
    /// A comment that begins with `/*` at this place and does not end.
    #[error("the comment at place {at} does not end")]
    OpenComment { at: u32 },
    /// A text in quotes, or a pragma, that begins at this place and does not end.
    #[error("the text or pragma at place {at} does not end")]
    OpenText { at: u32 },
    /// A number of 2^127 or more, at its first byte.
    #[error("the number at place {at} is 2^127 or more")]
    WideNumber { at: u32 },
    /// A word or punctuator outside the language.
    #[error("the word or punctuator of {len} bytes at place {at} is outside the language")]
    Refused { at: u32, len: u32 },
    /// Memory was wanted and not given.
    #[error("out of memory")]
    NoMemory,
}

impl From<NoMemory> for LexFault {
    ghost use Rattle.std.specs.Prelude.{◌≡◌};
    ghost use Rattle.sol_lexer.specs.declared.lexer.LexFault.TheVariants.{NoMemory};

    ghost from_gives = { λ _ e. e ≡ NoMemory };

    fn from(_e: NoMemory) -> LexFault {
        LexFault::NoMemory
    }
}

impl From<AllocError> for LexFault {
    ghost use Rattle.std.specs.Prelude.{◌≡◌};
    ghost use Rattle.sol_lexer.specs.declared.lexer.LexFault.TheVariants.{NoMemory};

    ghost from_gives = { λ _ e. e ≡ NoMemory };

    fn from(_e: AllocError) -> LexFault {
        LexFault::NoMemory
    }
}

impl<T: Drop> From<AllocFailed<T>> for LexFault {
    ghost use Rattle.std.specs.Prelude.{◌≡◌};
    ghost use Rattle.sol_lexer.specs.declared.lexer.LexFault.TheVariants.{NoMemory};

    ghost from_gives = { λ _ e. e ≡ NoMemory };

    fn from(_e: AllocFailed<T>) -> LexFault {
        LexFault::NoMemory
    }
}

/// A step of the scan: a token, or none where the piece is dropped, and how many bytes the piece takes.
#[derive(Drop)]
pub struct Step {
    pub token: Option<Token>,
    pub len: usize,
}

// The cut at the head of a text that has a byte.
#[tactic(auto, using(crate::proofs::Steps::telling))]
fn told_cut(text: &[u8]) -> Cut
    requires some { 0 < length text.now }
    requires short { length text.now ≤ MAX_FILE_BYTES }
    ensures { Says text.now result }
{
    first_cut(text)
}

// A text as a name.
fn name(alloc: Global, text: &[u8]) -> Result<Name, NoMemory>
    requires { IsUtf8 text.now }
    ensures { IfOk result (λ n. n ≡ text.now) }
{
    let text = std::str::from_utf8(text).unwrap();
    Ok(Name::from_string(String::from_str(alloc, text)?))
}

// A step that keeps a token.
fn kept(kind: TokenKind, at: u32, len: usize) -> Step
    requires { len ≤ MAX_FILE_BYTES }
    ensures { result ≡ record { token = Some (record { kind = kind; at = at; len = len }); len = len } }
{
    let token = Token {
        kind,
        at,
        len: len as u32,
    };
    Step {
        token: Some(token),
        len,
    }
}

// The step over the piece at the head of a text, before which stand `at` bytes.
fn next_step(alloc: Global, at: u32, text: &[u8]) -> Result<Step, LexFault>
    requires some { 0 < length text.now }
    requires short { at + length text.now ≤ MAX_FILE_BYTES }
    ensures { Steps at text.now result }
{
    match told_cut(text) {
        Cut::Dropped { len } => Ok(Step { token: None, len }),
        Cut::Word { len } => {
            let word = name(alloc, &text[..len])?;
            Ok(kept(TokenKind::Word(word), at, len))
        }
        Cut::Number { len, value, hex } => Ok(kept(TokenKind::Number { value, hex }, at, len)),
        Cut::Text { len } => Ok(kept(TokenKind::Text, at, len)),
        Cut::Mark { len } => {
            let mark = name(alloc, &text[..len])?;
            Ok(kept(TokenKind::Mark(mark), at, len))
        }
        Cut::BadByte { after } => Err(LexFault::BadByte {
            at: at + after as u32,
        }),
        Cut::OpenComment => Err(LexFault::OpenComment { at }),
        Cut::OpenText => Err(LexFault::OpenText { at }),
        Cut::WideNumber => Err(LexFault::WideNumber { at }),
        Cut::Refused { len } => Err(LexFault::Refused {
            at,
            len: len as u32,
        }),
    }
}

// The tokens with one more, where there is one.
fn add(tokens: &mut Vec<Token>, token: Option<Token>) -> Result<(), LexFault>
    ensures added { IfOk result (λ _. tokens.new.items ≡ tokens.old.items ++ option_to_list token) }
    ensures memory { result ≡ Err LexFault.NoMemory ⊎ (is_ok result ≡ true) }
{
    match token {
        None => Ok(()),
        Some(token) => {
            tokens.push(token)?;
            Ok(())
        }
    }
}

/// The tokens of a text of at most `MAX_FILE_BYTES` bytes, or the fault that stands first in it. Places and lengths count bytes.
/// `NoMemory` says nothing of the text. The time is linear.
pub fn lex(alloc: Global, text: &[u8]) -> Result<Vec<Token>, LexFault>
    requires { length text.now ≤ MAX_FILE_BYTES }
    ensures tokens { IfOk result (λ ts. Tokenizes text.now ts.items) }
    ensures fault { IfErr result (λ f. f ≢ LexFault.NoMemory → LexicalFault text.now f) }
{
    let mut tokens = Vec::new(alloc);
    let mut rest = text;
    let mut at = 0;
    while !rest.is_empty() {
        let Step { token, len } = next_step(alloc, at, rest)?;
        add(&mut tokens, token)?;
        at += len as u32;
        rest = &rest[len..];
    }
    Ok(tokens)
}

/// A text spells one list of tokens, or has one fault that stands first, and not both.
#[tactic(auto, using(crate::proofs::Laws::laws))]
pub fn token_laws()
    ensures some { (text : List ℕ) → ((ts : List Token) × Tokenizes text ts) ⊎ ((f : LexFault) × LexicalFault text f) }
    ensures one_list { (text : List ℕ) (ts us : List Token) → Tokenizes text ts → Tokenizes text us → ts ≡ us }
    ensures one_fault { (text : List ℕ) (f g : LexFault) → LexicalFault text f → LexicalFault text g → f ≡ g }
    ensures not_both { (text : List ℕ) (ts : List Token) (f : LexFault) → Tokenizes text ts → LexicalFault text f → ⊥ }
{}

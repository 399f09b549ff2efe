// From texts to tokens, trees and contracts, for the tests of what comes behind.

ghost use Rattle.std.specs.Prelude.{◌≤◌, length, IfOk, IfSome};
ghost use Rattle.sol_first.specs.Typed.{IsTyped};

use chc_nums::NoMemory;
use sol_first::Contract;
use sol_lexer::{LexFault, lex};
use sol_parse_expr::ParseFault;
use sol_parser::parse;
use sol_reader::{ReadFault, read};
use sol_tree::{File, Token};
use std::alloc::Global;

/// The tokens of a text; none where it has none.
pub fn tokens_of(alloc: Global, text: &str) -> Result<Vec<Token>, NoMemory>
    ensures { IfOk result (λ ts. length ts.items ≤ 262144) }
{
    let bytes = text.as_bytes();
    if bytes.len() > 262_144 {
        return Ok(Vec::new(alloc));
    }
    match lex(alloc, bytes) {
        Ok(tokens) if tokens.len() <= 262_144 => Ok(tokens),
        Err(LexFault::NoMemory) => Err(NoMemory),
        _ => Ok(Vec::new(alloc)),
    }
}

/// The file that a text is, or the place where it has no tree.
pub fn file_of(alloc: Global, text: &str) -> Result<Result<File, u32>, NoMemory> {
    let tokens = tokens_of(alloc, text)?;
    match parse(alloc, tokens.as_slice()) {
        Ok(file) => Ok(Ok(file)),
        Err(ParseFault::NoTree { at }) => Ok(Err(at)),
        Err(ParseFault::NoMemory) => Err(NoMemory),
    }
}

// The contract of a tree; none where it is that of no contract.
fn contract_in(alloc: Global, text: &[u8], file: &File) -> Result<Option<Contract>, NoMemory>
    requires { length text.now ≤ 262144 }
    ensures { IfOk result (λ o. IfSome o (λ c. IsTyped c)) }
{
    match read(alloc, text, file) {
        Ok(contract) => Ok(Some(contract)),
        Err(ReadFault::NotBuilt) => Ok(None),
        Err(ReadFault::NoMemory) => Err(NoMemory),
    }
}

/// The contract of a text; none where it is of no contract.
pub fn contract_of(alloc: Global, text: &str) -> Result<Option<Contract>, NoMemory>
    ensures { IfOk result (λ o. IfSome o (λ c. IsTyped c)) }
{
    let bytes = text.as_bytes();
    if bytes.len() > 262_144 {
        return Ok(None);
    }
    match file_of(alloc, text)? {
        Ok(file) => contract_in(alloc, bytes, &file),
        Err(_) => Ok(None),
    }
}

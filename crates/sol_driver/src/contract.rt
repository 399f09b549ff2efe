// From the bytes of a file to its contract.

ghost use Rattle.std.specs.Prelude.{◌≡◌, ◌≤◌, length, Ok};
ghost use Rattle.std.specs.Option.{option_map};
ghost use Rattle.sol_names.specs.Orders.{Orders};
ghost use Rattle.sol_lexer.specs.Tokens.{Tokenizes};
ghost use Rattle.sol_driver.specs.Findings.{GivesContract};
ghost use Rattle.sol_driver.specs.Refusals.{HasTree};

use crate::refusal::Refusal;
use chc_nums::{MAX_FILE_BYTES, Name};
use sol_first::Contract;
use sol_lexer::{LexFault, lex};
use sol_names::{Lineage, NameFault, order};
use sol_parse_expr::ParseFault;
use sol_parser::parse;
use sol_reader::{ReadFault, read};
use sol_tree::{File, Token};
use std::alloc::Global;

/// Why a text gives no contract: it is refused, or memory was wanting.
#[derive(Clone, Copy, Debug, PartialEq, Eq)]
pub enum CheckFault {
    Refused(Refusal),
    NoMemory,
}

fn name_of(name: &Option<Name>) -> Option<&str>
    ensures { option_map (λ r. r.now) result ≡ name.now }
{
    match name {
        None => None,
        Some(name) => Some(name.as_str()),
    }
}

// The contract of a text whose tree is this, with a contract to check.
#[tactic(auto, using(crate::proofs::Sources::contracts))]
fn read_ordered(
    alloc: Global,
    text: &[u8],
    file: &File,
    name: &Option<Name>,
    lineage: &Lineage,
) -> Result<Contract, CheckFault>
    requires short { length text.now ≤ MAX_FILE_BYTES }
    requires tree { HasTree text.now file.now }
    requires ordered { Orders file.now.units name.now (Ok lineage.now) }
    ensures { GivesContract name.now text.now result }
{
    match read(alloc, text, file) {
        Ok(contract) => Ok(contract),
        Err(ReadFault::NotBuilt) => Err(CheckFault::Refused(Refusal::NotBuilt)),
        Err(ReadFault::NoMemory) => Err(CheckFault::NoMemory),
    }
}

// The contract of a text whose tree is this.
#[tactic(auto, using(crate::proofs::Sources::orders))]
fn read_tree(
    alloc: Global,
    text: &[u8],
    file: &File,
    name: &Option<Name>,
) -> Result<Contract, CheckFault>
    requires short { length text.now ≤ MAX_FILE_BYTES }
    requires tree { HasTree text.now file.now }
    ensures { GivesContract name.now text.now result }
{
    match order(alloc, file, name_of(name)) {
        Ok(lineage) => read_ordered(alloc, text, file, name, &lineage),
        Err(NameFault::NoMemory) => Err(CheckFault::NoMemory),
        Err(fault) => Err(CheckFault::Refused(Refusal::Naming(fault))),
    }
}

// The contract of a text whose tokens are these.
#[tactic(auto, using(crate::proofs::Sources::sources))]
fn read_tokens(
    alloc: Global,
    text: &[u8],
    tokens: &[Token],
    name: &Option<Name>,
) -> Result<Contract, CheckFault>
    requires short { length text.now ≤ MAX_FILE_BYTES }
    requires tokens { Tokenizes text.now tokens.now }
    ensures { GivesContract name.now text.now result }
{
    match parse(alloc, tokens) {
        Ok(file) => read_tree(alloc, text, &file, name),
        Err(ParseFault::NoTree { at }) => Err(CheckFault::Refused(Refusal::NoTree { at })),
        Err(ParseFault::NoMemory) => Err(CheckFault::NoMemory),
    }
}

/// The contract of a text: the one of this name, or without one the last that is neither abstract nor an interface.
pub fn read_contract(
    alloc: Global,
    text: &[u8],
    name: &Option<Name>,
) -> Result<Contract, CheckFault>
    requires { length text.now ≤ MAX_FILE_BYTES }
    ensures { GivesContract name.now text.now result }
{
    match lex(alloc, text) {
        Ok(tokens) => read_tokens(alloc, text, tokens.as_slice(), name),
        Err(LexFault::NoMemory) => Err(CheckFault::NoMemory),
        Err(fault) => Err(CheckFault::Refused(Refusal::Lexical(fault))),
    }
}

// The words of the grammar, and the spellings of types, units and operators.

ghost use Rattle.std.specs.Prelude.{◌≡◌};
ghost use Rattle.sol_tree.specs.Words.{elementary_type, found, is_name, number_unit, operator_of, rows};

use crate::expr::{BinaryOp, NumberUnit};
use crate::refused::is_one_of;
use chc_nums::Ty;

// The words of the grammar, but for those of types and units. `error` is a name too, and is not among them.
const GRAMMAR_WORDS: [&str; 42] = [
    "abstract",
    "contract",
    "interface",
    "is",
    "public",
    "internal",
    "private",
    "constant",
    "immutable",
    "override",
    "function",
    "external",
    "view",
    "pure",
    "virtual",
    "returns",
    "constructor",
    "modifier",
    "event",
    "anonymous",
    "indexed",
    "mapping",
    "unchecked",
    "if",
    "else",
    "while",
    "do",
    "for",
    "break",
    "continue",
    "return",
    "_",
    "emit",
    "revert",
    "require",
    "assert",
    "delete",
    "true",
    "false",
    "type",
    "msg",
    "super",
];

// The elementary types.
const TYPES: [(&str, Ty); 26] = [
    ("bool", Ty::Bool),
    ("address", Ty::Addr),
    ("uint8", Ty::Uint(1)),
    ("uint16", Ty::Uint(2)),
    ("uint24", Ty::Uint(3)),
    ("uint32", Ty::Uint(4)),
    ("uint40", Ty::Uint(5)),
    ("uint48", Ty::Uint(6)),
    ("uint56", Ty::Uint(7)),
    ("uint64", Ty::Uint(8)),
    ("uint72", Ty::Uint(9)),
    ("uint80", Ty::Uint(10)),
    ("uint88", Ty::Uint(11)),
    ("uint96", Ty::Uint(12)),
    ("int8", Ty::Int(1)),
    ("int16", Ty::Int(2)),
    ("int24", Ty::Int(3)),
    ("int32", Ty::Int(4)),
    ("int40", Ty::Int(5)),
    ("int48", Ty::Int(6)),
    ("int56", Ty::Int(7)),
    ("int64", Ty::Int(8)),
    ("int72", Ty::Int(9)),
    ("int80", Ty::Int(10)),
    ("int88", Ty::Int(11)),
    ("int96", Ty::Int(12)),
];

// The units of numbers.
const UNITS: [(&str, NumberUnit); 8] = [
    ("seconds", NumberUnit::Seconds),
    ("minutes", NumberUnit::Minutes),
    ("hours", NumberUnit::Hours),
    ("days", NumberUnit::Days),
    ("weeks", NumberUnit::Weeks),
    ("wei", NumberUnit::Wei),
    ("gwei", NumberUnit::Gwei),
    ("ether", NumberUnit::Ether),
];

// The operators between two operands.
const OPERATORS: [(&str, BinaryOp); 14] = [
    ("**", BinaryOp::Power),
    ("*", BinaryOp::Multiply),
    ("/", BinaryOp::Divide),
    ("%", BinaryOp::Remainder),
    ("+", BinaryOp::Add),
    ("-", BinaryOp::Subtract),
    ("<", BinaryOp::Less),
    (">", BinaryOp::Greater),
    ("<=", BinaryOp::LessEqual),
    (">=", BinaryOp::GreaterEqual),
    ("==", BinaryOp::Equal),
    ("!=", BinaryOp::NotEqual),
    ("&&", BinaryOp::And),
    ("||", BinaryOp::Or),
];

// What stands beside a text in a table.
fn found<T: Copy>(text: &[u8], table: &[(&str, T)]) -> Option<T>
    ensures { result ≡ found text.now (rows table.now) }
{
    let mut rest = table;
    while let [row, more @ ..] = rest {
        if text == row.0.as_bytes() {
            return Some(row.1);
        }
        rest = more;
    }
    None
}

/// The elementary type of this name.
#[tactic(auto, unfolding(crate::specs::Words::elementary_type))]
pub fn elementary_type(word: &[u8]) -> Option<Ty>
    ensures { result ≡ elementary_type word.now }
{
    found(word, &TYPES)
}

/// The unit of this name.
#[tactic(auto, unfolding(crate::specs::Words::number_unit))]
pub fn number_unit(word: &[u8]) -> Option<NumberUnit>
    ensures { result ≡ number_unit word.now }
{
    found(word, &UNITS)
}

/// The operator between two operands that is spelled so.
#[tactic(auto, unfolding(crate::specs::Words::operator_of))]
pub fn operator_of(mark: &[u8]) -> Option<BinaryOp>
    ensures { result ≡ operator_of mark.now }
{
    found(mark, &OPERATORS)
}

/// Whether a word is a name: no word of the grammar, elementary type or unit.
#[tactic(auto, unfolding(crate::specs::Words::is_name, crate::specs::Words::grammar_words))]
pub fn is_name(word: &[u8]) -> bool
    ensures { result ≡ is_name word.now }
{
    !is_one_of(word, &GRAMMAR_WORDS)
        && elementary_type(word).is_none()
        && number_unit(word).is_none()
}

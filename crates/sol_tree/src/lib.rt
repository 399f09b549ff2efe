//! Tokens and trees of Solidity's grammar as plain data, with the words that are outside the language.
//!
//! Each line or alternative of the grammar is a struct or a variant, with its parts in the order written. `at` is the
//! place of its first token, in bytes from 0. A list with commas is a list, which is empty where it is left out.
#![tactic(auto)]

mod expr;
mod file;
mod refused;
mod stmt;
mod token;
mod types;
mod words;

pub use expr::{Arguments, BinaryOp, ExprTree, Initial, NumberUnit};
pub use file::{
    Base, Constructor, ConstructorSpecifier, Error, Event, EventParam, File, Fun, FunSpecifier,
    Member, Modifier, ModifierSpecifier, Override, Param, Unit, Var, VarSpecifier,
};
pub use refused::{is_one_of, is_refused_word};
pub use stmt::{AssignOp, Block, Simple, StepOp, Stmt, Text};
pub use token::{Token, TokenKind};
pub use types::{Identifier, Type};
pub use words::{elementary_type, is_name, number_unit, operator_of};

//! Expressions and types from tokens, as the grammar in `specs/Grammar.antt` says.
//! `parse_expr` gives the longest expression at a place.
#![tactic(auto)]

mod expr;
mod fault;
mod furthest;
mod nodes;
mod steps;
mod types;
mod uniqueness;

pub use expr::{all_at, expr_at, parse_expr};
pub use fault::ParseFault;
pub use furthest::Furthest;
pub use steps::{mark_at, may_name_at, name_at, word_at};
pub use types::type_at;
pub use uniqueness::{one_expression, one_type};

//! The tokens of a text, as the definition in `specs/Tokens.antt` cuts it.
//! `lex` gives the one list of tokens that the text spells, or the fault that stands first in it.
#![tactic(auto)]

mod bytes;
mod cut;
mod lexer;
mod marks;
mod numbers;

pub use lexer::{LexFault, lex, token_laws};

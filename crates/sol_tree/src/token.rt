// Tokens.

use chc_nums::Name;

/// What a token is. A `Name` holds its bytes.
#[derive(Drop)]
pub enum TokenKind {
    /// A word: a name or a word of the grammar.
    Word(Name),
    /// A number, and whether it is written in hexadecimal.
    Number { value: i128, hex: bool },
    /// A text between quotes. Its bytes are not kept.
    Text,
    /// A punctuator.
    Mark(Name),
}

/// A token: its kind, the place of its first byte, counted from 0, and how many bytes it takes.
#[derive(Drop)]
pub struct Token {
    pub kind: TokenKind,
    pub at: u32,
    pub len: u32,
}

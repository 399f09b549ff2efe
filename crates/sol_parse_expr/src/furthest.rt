// How far reading came.

ghost use Rattle.std.specs.Prelude.{◌≡◌, ◌-◌, ◌^◌, length, min};
ghost use Rattle.sol_parse_expr.specs.Place.{IsPlace};

use sol_tree::Token;
use std::alloc::Global;

/// Where nodes are allocated, and how few tokens were left at the furthest token that was looked at.
#[derive(Drop)]
pub struct Furthest {
    pub alloc: Global,
    pub fewest_left: usize,
}

impl Furthest {
    /// Before anything is read.
    pub fn new(alloc: Global) -> Furthest
        ensures { result.fewest_left ≡ 2 ^ 64 - 1 }
    {
        Furthest {
            alloc,
            fewest_left: usize::MAX,
        }
    }

    /// The first of these tokens, or their end, is looked at.
    pub fn note(&mut self, tokens: &[Token])
        ensures { self.new.fewest_left ≡ min self.old.fewest_left (length tokens.now) }
    {
        if tokens.len() < self.fewest_left {
            self.fewest_left = tokens.len();
        }
    }

    /// The place in all tokens that reading came to.
    pub fn place(&self, tokens: &[Token]) -> u32
        ensures { IsPlace result tokens.now }
    {
        place_at(tokens, tokens.len().saturating_sub(self.fewest_left))
    }
}

// The place of a token, or where there is none the end of the last token.
fn place_at(tokens: &[Token], at: usize) -> u32
    ensures { IsPlace result tokens.now }
{
    if let Some(token) = tokens.get(at) {
        return token.at;
    }
    match tokens.get(tokens.len().saturating_sub(1)) {
        Some(last) => last.at.saturating_add(last.len),
        None => 0,
    }
}

// The tree of all tokens.

ghost use Rattle.std.specs.Prelude.{◌≡◌, ◌≤◌, length, List};
ghost use Rattle.chc_nums.specs.declared.limits.TheConstants.{MAX_FILE_BYTES};
ghost use Rattle.sol_tree.specs.declared.token.Token.{Token};
ghost use Rattle.sol_tree.specs.declared.file.File.{File};
ghost use Rattle.sol_parser.specs.Trees.{IsTree, Parses};

use crate::units::file_at;
use sol_parse_expr::{Furthest, ParseFault};
use sol_tree::{File, Token};
use std::alloc::Global;

/// The tree that the tokens spell, of at most `MAX_LEVELS` levels. `NoTree` says that there is none, and how far reading came.
#[tactic(auto, using(crate::proofs::Laws::parsing))]
pub fn parse(alloc: Global, tokens: &[Token]) -> Result<File, ParseFault>
    requires few { length tokens.now ≤ MAX_FILE_BYTES }
    ensures { Parses result tokens.now }
{
    let mut furthest = Furthest::new(alloc);
    match file_at(&mut furthest, tokens)? {
        Some(file) => Ok(file),
        None => Err(ParseFault::NoTree {
            at: furthest.place(tokens),
        }),
    }
}

/// At most one tree spells a list of tokens.
#[tactic(auto, using(crate::proofs::Laws::uniqueness))]
pub fn one_tree()
    ensures { (f g : File) (ts : List Token) → IsTree f ts → IsTree g ts → f ≡ g }
{}

// What holds of all expressions and types.

ghost use Rattle.std.specs.Prelude.{◌≡◌, List};
ghost use Rattle.sol_tree.specs.declared.token.Token.{Token};
ghost use Rattle.sol_tree.specs.declared.types.Type as types;
ghost use Rattle.sol_tree.specs.declared.expr.ExprTree as tree;
ghost use Rattle.sol_parse_expr.specs.Grammar.{Spells, SpellsType};

/// No tokens are spelled by two expressions.
#[tactic(auto, using(crate::proofs::Laws::uniqueness))]
pub fn one_expression()
    ensures { (e f : tree.ExprTree) (ts : List Token) → Spells 10 e ts → Spells 10 f ts → e ≡ f }
{}

/// No tokens are spelled by two types.
#[tactic(auto, using(crate::proofs::Laws::uniqueness))]
pub fn one_type()
    ensures { (t u : types.Type) (ts : List Token) → SpellsType t ts → SpellsType u ts → t ≡ u }
{}

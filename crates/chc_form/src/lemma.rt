// Lemmas on predicates.

use chc_nums::{List, Ty};

/// A key of a mapping's read: an argument of the predicate, or a bound key of the lemma, by its number.
#[derive(Clone, Copy, Debug, PartialEq, Eq)]
pub enum KeyTerm {
    Arg(u32),
    Key(u32),
}

/// What a literal sums: an argument, a bound key, or what the mapping that is an argument holds at some keys.
#[derive(Drop)]
pub enum LitTerm {
    Arg(u32),
    Key(u32),
    Read(u32, List<KeyTerm>),
}

/// A literal: the sum of terms times coefficients and a constant is at most 0.
#[derive(Drop)]
pub struct Lit {
    pub terms: List<(LitTerm, i128)>,
    pub konst: i128,
}

/// A lemma on a predicate: for all values of its bound keys in their types one of the literals holds.
#[derive(Drop)]
pub struct Lemma {
    pub pred: u32,
    pub keys: List<Ty>,
    pub lits: List<Lit>,
}

/// A cube on a predicate: for some values of its bound keys in their types all literals hold.
#[derive(Drop)]
pub struct Cube {
    pub pred: u32,
    pub keys: List<Ty>,
    pub lits: List<Lit>,
}

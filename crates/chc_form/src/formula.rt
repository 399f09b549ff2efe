// Formulas over whole numbers, and derivations.

use crate::linear::Lin;
use crate::system::Part;
use chc_nums::List;
use sqlite_items::Items;

/// A formula: a sum is at most 0, all of some formulas, or one of them.
#[derive(Drop)]
pub enum Formula {
    Le(Lin),
    And(Items<Formula>),
    Or(Items<Formula>),
}

/// A derivation: a rule or query, the values of its variables that are no mappings, in ascending order, and one
/// derivation per atom of its body.
#[derive(Drop)]
pub struct Derivation {
    pub part: Part,
    pub values: List<i128>,
    pub below: Items<Derivation>,
}

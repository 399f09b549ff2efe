// Horn rules.

use crate::linear::Lin;
use chc_nums::{List, Ty};

/// What a variable stands for: a number of a type, any whole number, or a mapping from one or two keys of these types
/// to values of a type, which is 0 for all other keys.
#[derive(Drop)]
pub enum Sort {
    Whole(Ty),
    Free,
    Map(List<Ty>, Ty),
}

/// A constraint on the variables of a rule or query, which go by their numbers.
#[derive(Drop)]
pub enum Con {
    /// The sum is at most 0.
    Le(Lin),
    /// The sum is not 0.
    Differ(Lin),
    /// The variable is the product of the sums.
    Mul(Lin, Lin, u32),
    /// The second sum is not 0, and the variable is the quotient, truncated towards 0.
    Div(Lin, Lin, u32),
    /// The second sum is not 0, and the variable is the remainder of that division.
    Rem(Lin, Lin, u32),
    /// The last variable is what the mapping, the first, holds at these keys.
    Sel(u32, List<Lin>, u32),
    /// The first mapping is the second with the last sum at these keys.
    Sto(u32, u32, List<Lin>, Lin),
    /// The mapping is 0 everywhere.
    Zero(u32),
}

/// An atom: a predicate by its number, and the variables that are its arguments.
#[derive(Drop)]
pub struct App {
    pub pred: u32,
    pub args: List<u32>,
}

/// A rule: where the body's atoms hold and the constraints are true, the head holds.
#[derive(Drop)]
pub struct Rule {
    pub vars: List<Sort>,
    pub body: List<App>,
    pub cons: List<Con>,
    pub head: App,
}

/// A query: whether the body's atoms can hold and the constraints be true, for a target by its number.
#[derive(Drop)]
pub struct Query {
    pub vars: List<Sort>,
    pub body: List<App>,
    pub cons: List<Con>,
    pub target: u32,
}

/// Predicates by the sorts of their arguments, rules, and queries.
#[derive(Drop)]
pub struct System {
    pub preds: List<List<Sort>>,
    pub rules: List<Rule>,
    pub queries: List<Query>,
}

/// A rule or a query, by its number.
#[derive(Clone, Copy, Debug, PartialEq, Eq)]
pub enum Part {
    Rule(u32),
    Query(u32),
}

//! From a rule or query and lemmas to the formula that has to be refuted (`reduce`), and from a formula to the
//! inequalities that one run of the tableau takes (`formula_rows`). What the formula says of lemmas is `reduction_law`; what its
//! rows say of it is `rows_law`.
#![tactic(auto)]

mod laws;
mod literals;
mod premises;
mod reduction;
mod shape;

pub use laws::{order_law, reduction_law, rows_law};
pub use premises::{Premises, goal_rows};
pub use reduction::reduce;
pub use shape::{FormulaRows, formula_rows};

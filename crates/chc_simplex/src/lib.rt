//! One run of the simplex tableau by Bland's rule, in exact whole numbers of 128 bits. The answer of `solve` is that
//! of `tableau_run` (`specs/TableauRun.antt`): multipliers that refute the rows, a point that satisfies them, or that
//! the run left 128 bits or took too many pivots.
#![tactic(auto)]

mod data;
mod endings;
mod laws;
mod lines;
mod numbers;
mod rounds;
mod run;
mod simplex;
mod terms;

pub use chc_form::Row;
pub use data::Lp;
pub use laws::sums_law;
pub use run::solve;

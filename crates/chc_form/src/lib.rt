//! Rule systems, lemmas and linear sums as plain data. What they say of numbers stands in `specs/`: constraints, atoms
//! and lemmas at values, systems that lemmas solve, queries that they refute, and which multipliers refute inequalities.
//! `well_made` and `of_system` test the conditions that the engines ask of systems and lemmas. `joining_law` lets
//! batches be joined, and `derivation_law` keeps what is derived from being refuted.
#![tactic(auto)]

mod conditions;
mod copies;
mod formula;
mod formula_laws;
mod laws;
mod lemma;
mod lemma_laws;
mod linear;
mod places;
mod row_sums;
mod same;
mod sorts;
mod system;

pub use conditions::well_made;
pub use formula::{Derivation, Formula};
pub use formula_laws::formula_law;
pub use laws::{point_law, refutation_law};
pub use lemma::{Cube, KeyTerm, Lemma, Lit, LitTerm};
pub use lemma_laws::{derivation_law, joining_law, order_law};
pub use linear::{Limits, Lin, Row};
pub use places::of_system;
pub use row_sums::{constant_sum, number_at, variable_sums, width, zeros};
pub use system::{App, Con, Part, Query, Rule, Sort, System};

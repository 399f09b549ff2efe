//! Whether multipliers refute rows, tested in 128 bits. `passes` says so by one equation with the test of
//! `specs/Passing.antt`; `passing_law` says that what passes refutes the rows, and that what refutes them passes, where the
//! sums stay within 128 bits. The test knows nothing of how multipliers are found.
#![tactic(auto)]

mod passing;
mod passing_laws;

pub use passing::passes;
pub use passing_laws::passing_law;

//! Exact numbers: the ranges of types, operations that are checked against them, arithmetic that stops where it
//! leaves 128 bits, and the limits of the tool.
//! `checked_op` is the true result against the type's range, `mul_add` is none exactly where it leaves 128 bits,
//! and `gcd` is the greatest common divisor, each by its one clause.
#![tactic(auto)]

mod limits;
mod total;
mod typed;
mod wide;

pub use limits::{
    MAX_CANDIDATES, MAX_FILE_BYTES, MAX_FUNCTIONS, MAX_LEMMAS, MAX_LEVELS, MAX_LOCALS, MAX_NODES,
    MAX_PIVOTS, MAX_PROBES, MAX_STATEMENTS, MAX_TURNS, MAX_VARIABLES,
};
pub use lists::{List, Name, NoMemory};
pub use total::Total;
pub use typed::{Num, Op, Ty, checked_op, division_laws, power, range};
pub use wide::{
    add_product, difference, gcd, mul_add, mul_add_in, opposite, product, quotient, remainder, sum,
};

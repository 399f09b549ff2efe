//! The names of a file's units and members, the contract that is checked, and the C3 order of its bases. `order` gives the
//! linearization exactly where no fault of `specs/Orders.antt` applies, and else the first that does.
#![tactic(auto)]

mod contracts;
mod fault;
mod laws;
mod lineage;
mod linearize;
mod merge;
mod names;
mod schedule;
mod supplied;
mod units;

pub use fault::NameFault;
pub use laws::order_laws;
pub use lineage::{Lineage, order};

//! The ground: lists and names that contracts see as what they hold, want of memory, and what std lacks on lists: copies and
//! sameness entry by entry, and lemmas on entries from a place on, on tests and on options. What it holds:
//!
//! | here | what |
//! |---|---|
//! | `List`, `Name`, `NoMemory` | plain data, and the one answer for want of memory |
//! | `Copied`, `all_copied` | copies that are equal, of one value and of all entries |
//! | `Same`, `all_same` | whether two values, or all entries of two lists, are the same data |
//! | `proofs/Places.antt` | what a list has from a place on, as a loop goes along it |
//! | `proofs/Tests.antt` | `or`, orders and sameness of numbers as tests |
//! | `proofs/Options.antt` | the two cases of an option |
#![tactic(auto)]

mod copied;
mod list;
mod memory;
mod name;
mod same;

pub use copied::{Copied, all_copied};
pub use list::List;
pub use memory::NoMemory;
pub use name::Name;
pub use same::{Same, all_same};

//! The check of a contract: Horn rules, template lemmas and the pool that they join, and then a verdict per target, by the
//! pool's lemmas and by probes. What the report of `check_contract` says of the contract is `IsReportOf`
//! (`specs/Reports.antt`).
#![tactic(auto)]

mod check;
mod judge;
mod pool;

pub use check::check_contract;

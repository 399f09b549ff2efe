//! Batches of lemmas that were shown relative to a base, and the pool that they join.
//! `Batch::new` tests a proof for each lemma and each rule with a head on its predicate, and what it answers is
//! `unproved` of `specs/Unproved.antt`; `proof_law` says that a batch with no open obligation is relative to its base.
//! A `Pool` has grown by batches, each relative to a prefix of what was there (`specs/Content.antt`), so its lemmas
//! solve the rules, and no lemma is shown twice.
#![tactic(auto)]

mod batch;
mod fault;
mod joined;
mod laws;
mod obligations;
mod pool;
mod shared;

pub use batch::Batch;
pub use fault::BatchFault;
pub use joined::Joined;
pub use laws::proof_law;
pub use pool::Pool;

//! Tests of the engine by worked numbers: what no clause says, and that each call can succeed. They use public calls
//! alone, and most of them one worked system, the counter of `counter.rt`.
#![tactic(auto)]

#[cfg(test)]
mod ask;
#[cfg(test)]
mod cert;
#[cfg(test)]
mod claims;
#[cfg(test)]
mod core_events;
#[cfg(test)]
mod counter;
#[cfg(test)]
mod form;
#[cfg(test)]
mod houdini;
#[cfg(test)]
mod nums;
#[cfg(test)]
mod pool;
#[cfg(test)]
mod reduce;
#[cfg(test)]
mod shared_pool;
#[cfg(test)]
mod simplex;
#[cfg(test)]
mod templates;
#[cfg(test)]
mod two_passes;

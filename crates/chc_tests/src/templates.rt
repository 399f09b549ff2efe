// The candidates of the counter.

use crate::counter::{are_at_most, counter};
use chc_form::well_made;
use chc_nums::NoMemory;
use chc_templates::candidates;
use std::alloc::Global;
use std::test::Fail;

fn has_candidates(alloc: Global) -> Result<bool, NoMemory> {
    let s = counter(alloc)?;
    if !well_made(&s) {
        return Ok(false);
    }
    let made = candidates(alloc, &s)?;
    Ok(are_at_most(made.as_slice(), &[0, 1, 9, 10, 11]))
}

#[test]
fn candidates_of_a_counter(rt: HostRuntime) -> Result<(), Fail> {
    let has = has_candidates(rt.alloc())?;
    assert!(rt; has);
    Ok(())
}

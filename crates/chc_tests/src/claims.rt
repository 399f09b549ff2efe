// Numbers that passes claim.

use chc_nums::NoMemory;
use pool_claims::Claims;
use std::alloc::Global;
use std::test::Fail;

// Whether two passes that claim two numbers in turn, twice each, have the first, the second, and none twice.
#[tactic(auto, using(crate::proofs::Claiming::claiming))]
fn claims_of_two(alloc: Global) -> Result<bool, NoMemory> {
    let (claims, passes) = Claims::open(alloc, 2, 2)?;
    let mut passes = passes;
    let Some(mut second) = passes.pop() else {
        unreachable!()
    };
    let Some(mut first) = passes.pop() else {
        unreachable!()
    };
    let drawn = [
        claims.claim(&mut first),
        claims.claim(&mut second),
        claims.claim(&mut first),
        claims.claim(&mut second),
    ];
    passes.push_reserved(first);
    passes.push_reserved(second);
    let count = claims.close(passes);
    Ok(drawn == [Some(0), Some(1), None, None] && count == 2)
}

#[test]
fn each_number_is_claimed_once(rt: HostRuntime) -> Result<(), Fail> {
    let are_right = claims_of_two(rt.alloc())?;
    assert!(rt; are_right);
    Ok(())
}

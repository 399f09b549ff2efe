// The functions that an outsider may call.

ghost use Rattle.std.specs.Prelude.{◌≡◌, Some, None, MatchOption};
ghost use Rattle.sol_core.specs.Doors.{door, params_of};

use crate::program::{Fun, Program};
use chc_nums::Ty;

/// The function behind a door, where there is one.
pub fn door(p: &Program, door_number: u32) -> Option<&Fun>
    ensures { MatchOption result (door p.now door_number ≡ None) (λ f. door p.now door_number ≡ Some f.now) }
{
    let fun = p.doors.get(door_number as usize)?;
    p.funs.get(*fun as usize)
}

/// The types of a function's parameters, where it has as many locals.
pub fn params_of(fun: &Fun) -> &[Ty]
    ensures { result.now ≡ params_of fun.now }
{
    let locals = fun.locals.as_slice();
    let count = fun.params as usize;
    if count <= locals.len() {
        &locals[..count]
    } else {
        locals
    }
}

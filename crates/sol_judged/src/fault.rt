// Why a text is not typed.

use crate::rules::Rule;
use chc_nums::NoMemory;
use std::alloc::{AllocError, AllocFailed};

/// Why a text is not typed. A place counts bytes from 0.
#[derive(Clone, Copy, Debug)]
pub enum TypeFault {
    /// A rule is broken at a place.
    Broken { rule: Rule, at: u32 },
    /// Memory was wanted and not given.
    NoMemory,
}

impl From<AllocError> for TypeFault {
    ghost use Rattle.std.specs.Prelude.{◌≡◌};
    ghost use Rattle.sol_judged.specs.declared.fault.TypeFault.TheVariants as fault;

    ghost from_gives = { λ _ e. e ≡ fault.NoMemory };

    fn from(_error: AllocError) -> TypeFault {
        TypeFault::NoMemory
    }
}

impl From<NoMemory> for TypeFault {
    ghost use Rattle.std.specs.Prelude.{◌≡◌};
    ghost use Rattle.sol_judged.specs.declared.fault.TypeFault.TheVariants as fault;

    ghost from_gives = { λ _ e. e ≡ fault.NoMemory };

    fn from(_error: NoMemory) -> TypeFault {
        TypeFault::NoMemory
    }
}

impl<T: Drop> From<AllocFailed<T>> for TypeFault {
    ghost use Rattle.std.specs.Prelude.{◌≡◌};
    ghost use Rattle.sol_judged.specs.declared.fault.TypeFault.TheVariants as fault;

    ghost from_gives = { λ _ e. e ≡ fault.NoMemory };

    fn from(_error: AllocFailed<T>) -> TypeFault {
        TypeFault::NoMemory
    }
}

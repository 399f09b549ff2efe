// Why there is no batch.

use chc_nums::NoMemory;
use std::alloc::AllocError;

/// Why lemmas are no batch: the proof for a lemma, by its place, at a rule, by its number, is missing or does not pass;
/// or memory was wanted and not given.
#[derive(Clone, Copy, Debug, PartialEq, Eq)]
pub enum BatchFault {
    Unproved { lemma: u32, rule: u32 },
    NoMemory,
}

impl From<NoMemory> for BatchFault {
    ghost use Rattle.std.specs.Prelude.{◌≡◌};
    ghost use Rattle.pool_state.specs.declared.fault.BatchFault.TheVariants.{NoMemory};

    ghost from_gives = { λ _ f. f ≡ NoMemory };

    fn from(_e: NoMemory) -> BatchFault {
        BatchFault::NoMemory
    }
}

impl From<AllocError> for BatchFault {
    ghost use Rattle.std.specs.Prelude.{◌≡◌};
    ghost use Rattle.pool_state.specs.declared.fault.BatchFault.TheVariants.{NoMemory};

    ghost from_gives = { λ _ f. f ≡ NoMemory };

    fn from(_e: AllocError) -> BatchFault {
        BatchFault::NoMemory
    }
}

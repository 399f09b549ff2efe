// Why a text is no script.

use chc_nums::NoMemory;
use std::alloc::AllocError;

/// Why a text tells no script of a program. Lines count from 1; the first line that is wrong is told, and of its causes the
/// first in this order.
#[derive(Clone, Copy, Debug, PartialEq, Eq)]
pub enum ScriptTextFault {
    /// A line says nothing that may stand there, or is missing.
    BadLine { line: u32 },
    /// A call names no function that an outsider may call.
    NoName { line: u32 },
    /// One reply more than 128 would be open.
    TooDeep { line: u32 },
    /// Memory was wanted and not given.
    NoMemory,
}

impl From<NoMemory> for ScriptTextFault {
    ghost use Rattle.std.specs.Prelude.{◌≡◌};
    ghost use Rattle.sol_script.specs.declared.fault.ScriptTextFault.TheVariants as fault;

    ghost from_gives = { λ _ e. e ≡ fault.NoMemory };

    fn from(_error: NoMemory) -> ScriptTextFault {
        ScriptTextFault::NoMemory
    }
}

impl From<AllocError> for ScriptTextFault {
    ghost use Rattle.std.specs.Prelude.{◌≡◌};
    ghost use Rattle.sol_script.specs.declared.fault.ScriptTextFault.TheVariants as fault;

    ghost from_gives = { λ _ e. e ≡ fault.NoMemory };

    fn from(_error: AllocError) -> ScriptTextFault {
        ScriptTextFault::NoMemory
    }
}

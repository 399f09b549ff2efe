// What is answered where nothing is read.

use chc_nums::NoMemory;
use thiserror::Error;

/// Why there is no tree. `at` is the place of the token that none begins with, or the end of the last token.
#[derive(Clone, Copy, Debug, PartialEq, Eq, Error)]
pub enum ParseFault {
    #[error("no tree at byte {at}")]
    NoTree { at: u32 },
    #[error("no memory")]
    NoMemory,
}

impl From<NoMemory> for ParseFault {
    ghost use Rattle.std.specs.Prelude.{◌≡◌};
    ghost use Rattle.sol_parse_expr.specs.declared.fault.ParseFault.TheVariants as fault;

    ghost from_gives = { λ _ e. e ≡ fault.NoMemory };

    fn from(_e: NoMemory) -> ParseFault {
        ParseFault::NoMemory
    }
}

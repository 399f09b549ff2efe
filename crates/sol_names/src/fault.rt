// Why a file has no contract to check.

use chc_nums::NoMemory;
use thiserror::Error;

/// Why there is no linearization. A place counts bytes from 0; among several places of one kind it is the least.
#[derive(Clone, Copy, Debug, PartialEq, Eq, Error)]
pub enum NameFault {
    /// Two units of the file, or two members of one unit, have one name, functions of one name included: the later of the
    /// two. A second constructor counts too, at its word.
    #[error("a name stands twice, again at byte {at}")]
    TwiceNamed { at: u32 },
    /// No contract or interface has the name, or where none is named, none could be deployed.
    #[error("no contract to check")]
    NoContract,
    /// A base of some unit names no contract and no interface of the file.
    #[error("a base at byte {at} names no contract")]
    UnknownBase { at: u32 },
    /// The chosen contract's bases have no C3 order: its name.
    #[error("the bases of the contract at byte {at} have no order")]
    NoOrder { at: u32 },
    /// The chosen contract is abstract or an interface, or a function of its linearization has no body anywhere: its name.
    #[error("the contract at byte {at} can't be deployed")]
    Abstract { at: u32 },
    /// Memory was wanted and not given.
    #[error("memory was wanted and not given")]
    NoMemory,
}

impl From<NoMemory> for NameFault {
    ghost use Rattle.std.specs.Prelude.{◌≡◌};
    ghost use Rattle.sol_names.specs.declared.fault.NameFault.TheVariants as fault;

    ghost from_gives = { λ _ e. e ≡ fault.NoMemory };

    fn from(_e: NoMemory) -> NameFault {
        NameFault::NoMemory
    }
}

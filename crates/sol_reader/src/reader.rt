// From the tree of a file to its contract.

ghost use Rattle.std.specs.Prelude.{◌≡◌, ◌≤◌, ℕ, List, length};
ghost use Rattle.chc_nums.specs.declared.limits.TheConstants.{MAX_FILE_BYTES};
ghost use Rattle.sol_tree.specs.declared.file.File.{File};
ghost use Rattle.sol_first.specs.declared.contract.Contract.{Contract};
ghost use Rattle.sol_reader.specs.Language.{IsFirst, Reads};

use crate::check::is_good;
use crate::contract::contract_of;
use crate::fault::ReadFault;
use crate::lines::Lines;
use sol_first::Contract;
use sol_tree::File;
use std::alloc::Global;

/// The contract of a file: its text, of at most `MAX_FILE_BYTES` bytes, and its tree. `NotBuilt` says that the tree is that of no
/// contract of the language.
#[tactic(auto, using(crate::proofs::Sources::sources))]
pub fn read(alloc: Global, text: &[u8], file: &File) -> Result<Contract, ReadFault>
    requires { length text.now ≤ MAX_FILE_BYTES }
    ensures { Reads text.now file.now result }
{
    let lines = Lines::new(alloc, text)?;
    let contract = contract_of(alloc, &lines, file)?;
    if is_good(&contract) {
        Ok(contract)
    } else {
        Err(ReadFault::NotBuilt)
    }
}

/// No tree of a text is of two contracts.
#[tactic(auto, using(crate::proofs::Sources::uniqueness))]
pub fn one_contract()
    ensures { (text : List ℕ) (f : File) (c d : Contract) → IsFirst text f c → IsFirst text f d → c ≡ d }
{}

// The targets of a run, in order.

ghost use Rattle.std.specs.Prelude.{ℕ, ◌↔◌, IfOk};
ghost use Rattle.std.specs.List.{Contains};
ghost use Rattle.std.specs.List.Sorted.{IsStrictlyIncreasing};

use chc_nums::{List, NoMemory};

/// The numbers of a list in ascending order, each once.
pub fn ascending(all: List<u32>) -> Result<List<u32>, NoMemory>
    ensures ascending { IfOk result (λ list. IsStrictlyIncreasing list) }
    ensures same { IfOk result (λ list. (t : ℕ) → Contains list t ↔ Contains all t) }
{
    let mut all = all.into_vec();
    all.sort()?;
    all.dedup();
    Ok(List::from_vec(all))
}

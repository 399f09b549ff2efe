// Copies that are equal to what is copied.

ghost use Rattle.std.specs.Prelude.{◌≡◌, IfOk};

use crate::memory::NoMemory;
use std::alloc::Global;

/// What can be copied, in memory of its own.
pub trait Copied: Drop + Sized {
    /// A value that is equal to this one.
    fn copied(&self, alloc: Global) -> Result<Self, NoMemory>
        ensures { IfOk result (λ c. c ≡ self.now) };
}

/// The list of the copies of all entries, which is equal to the list.
pub fn all_copied<T: Copied>(alloc: Global, entries: &[T]) -> Result<Vec<T>, NoMemory>
    ensures { IfOk result (λ all. all.items ≡ entries.now) }
{
    let mut all = Vec::new(alloc);
    for entry in entries {
        all.push(entry.copied(alloc)?)?;
    }
    Ok(all)
}

impl Copied for i128 {
    fn copied(&self, _alloc: Global) -> Result<i128, NoMemory> {
        Ok(*self)
    }
}

impl<A: Copied, B: Copied> Copied for (A, B) {
    fn copied(&self, alloc: Global) -> Result<(A, B), NoMemory> {
        let first = self.0.copied(alloc)?;
        let second = self.1.copied(alloc)?;
        Ok((first, second))
    }
}

// A list of plain data, over a vector. Contracts see what it holds.
// Where a type leads back to itself through a list, it has `Items` of `sqlite_items` there.

ghost use Rattle.std.specs.Prelude.{◌≡◌, [], ◌∷◌, ◌++◌, ◌<◌, length, slice_get, slice_set, OnOk, OnErr, IfOk, IfNone, option_to_list, ◌==◌};
ghost use Rattle.std.specs.Option.{option_copied};

use crate::memory::NoMemory;
use std::alloc::Global;
use std::marker::Model;

/// A list of plain data.
#[derive(Debug, Drop)]
pub struct List<T> {
    items: Vec<T>,
}

impl<T> Model for List<T> {
    ghost use Rattle.std.specs.Prelude.{List};
    ghost use Rattle.std.specs.Coded.{coded_list};

    ghost Value = { List T };

    ghost coded = { coded_list T.code };

    ghost view = { λ list. list.items.items };
}

impl<T> List<T> {
    /// A list of nothing.
    pub fn new(alloc: Global) -> List<T>
        ensures { result ≡ [] }
    {
        List::from_vec(Vec::new(alloc))
    }

    /// A list of nothing, with room for so many entries.
    pub fn with_capacity(alloc: Global, capacity: usize) -> Result<List<T>, NoMemory>
        ensures { IfOk result (λ list. list ≡ []) }
    {
        Ok(List::from_vec(Vec::with_capacity(alloc, capacity)?))
    }

    /// The list of what a vector has, with no new memory.
    pub fn from_vec(items: Vec<T>) -> List<T>
        ensures { result ≡ items.items }
    {
        List { items }
    }

    /// What the list has, as a vector, with no new memory.
    pub fn into_vec(self) -> Vec<T>
        ensures { result.items ≡ self }
    {
        let List { items } = self;
        items
    }

    /// What the list has, to read.
    pub fn as_slice(&self) -> &[T]
        ensures { result.now ≡ self.now }
    {
        self.items.as_slice()
    }

    /// The number of entries.
    pub fn len(&self) -> usize
        ensures { result ≡ length self.now }
    {
        self.items.len()
    }

    /// Whether the list has nothing.
    pub fn is_empty(&self) -> bool
        ensures { result ≡ (length self.now == 0) }
    {
        self.items.is_empty()
    }

    /// The last entry, taken out, or none of an empty list.
    pub fn pop(&mut self) -> Option<T>
        ensures entries { self.old ≡ self.new ++ option_to_list result }
        ensures none { IfNone result (self.new ≡ []) }
    {
        self.items.pop()
    }

    /// The entry at a place, or none past the end.
    pub fn get(&self, at: usize) -> Option<&T>
        ensures { option_copied result ≡ slice_get self.now at }
    {
        self.items.get(at)
    }
}

impl<T: Drop> List<T> {
    /// One entry more, at the end. Without memory the list stays as it was.
    pub fn push(&mut self, entry: T) -> Result<(), NoMemory>
        ensures added { OnOk result (self.new ≡ self.old ++ entry ∷ []) }
        ensures unchanged { OnErr result (self.new ≡ self.old) }
    {
        self.items.push(entry)?;
        Ok(())
    }

    /// Another entry at a place that the list has.
    pub fn set(&mut self, at: usize, entry: T)
        requires { at < length self.old }
        ensures { self.new ≡ slice_set self.old at entry }
    {
        self.items[at] = entry;
    }
}

impl<T: Copy> List<T> {
    /// A list that is equal to this one.
    pub fn copy(&self, alloc: Global) -> Result<List<T>, NoMemory>
        ensures { IfOk result (λ list. list ≡ self.now) }
    {
        Ok(List::from_vec(Vec::from_slice(alloc, self.items.as_slice())?))
    }
}

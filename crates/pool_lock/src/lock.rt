// The lock, and the rule that its table keeps.

ghost use Rattle.std.specs.Prelude.{◌≡◌, ◌≤◌};

use crate::growing::Growing;
use crate::view::View;
use atomic_table::{Table, TableRule};
use std::alloc::Global;
use std::marker::PhantomData;

/// The rule of a lock of such a value, for a number of passes.
pub struct Turns<T> {
    marker: PhantomData<T>,
}

impl<T: Growing> TableRule<Option<T>, View<T::Item, T::Root>, u32> for Turns<T> {
    ghost use Rattle.pool_lock.specs.declared.view.Phase.TheVariants.{Empty};
    ghost use Rattle.pool_lock.specs.Rule.{Kept};
    ghost use Rattle.pool_lock.specs.Views.{beginner};

    ghost holds = { λ n. Kept T.list T.root n };

    ghost first = { λ n. beginner n Empty };
}

/// A value that one pass at a time may have, in the order in which tickets were drawn.
pub struct PoolLock<T: Growing> {
    pub(crate) table: Table<Option<T>, View<T::Item, T::Root>, u32, Turns<T>, Global>,
    ghost some: { 1 ≤ table.shared.key },
    ghost counts: { (table.shared.table_id.words ≡ 3) × (table.shared.table_id.slots ≡ 1) },
}

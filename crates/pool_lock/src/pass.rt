// A pass.

ghost use Rattle.std.specs.Prelude.{◌≡◌, length};
ghost use Rattle.pool_lock.specs.Views.{seen_in};

use crate::growing::Growing;
use crate::view::View;
use atomic_table::Seat;

pub(crate) type SeatOf<T> = Seat<Option<T>, View<<T as Growing>::Item, <T as Growing>::Root>>;

/// What a thread calls the lock with. It belongs to one lock, which gives all its passes when it is opened and takes them
/// when it is closed.
pub type Pass<T> = NumberedSeat<T, <T as Growing>::Item, <T as Growing>::Root>;

/// A seat of a lock's table, the number of its pass, and how many items it has seen. Where one is let go, the lock can't be
/// closed any more.
#[derive(Drop)]
pub struct NumberedSeat<T, X, Root> {
    pub(crate) number: u32,
    pub(crate) seen: u64,
    pub(crate) seat: Seat<Option<T>, View<X, Root>>,
    ghost counted: { seen ≡ length (seen_in seat.me.0) },
}

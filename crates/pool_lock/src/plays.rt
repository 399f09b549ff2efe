// What each step on the table tells the seat that makes it.

ghost use Rattle.pool_lock.specs.Told.{fetched, filled, drew, waited, glanced, looked, published, passed_on, first_of, rest_of, both_of, spent};

use crate::growing::Growing;
use crate::view::View;
use atomic_table::{Join, Play, Split};

// The first seat takes the empty slot.
pub struct Fetch;

impl<T: Growing> Play<Option<T>, View<T::Item, T::Root>> for Fetch {
    ghost then = { fetched };
}

// The first seat gives the slot back, with the value.
pub struct Fill;

impl<T: Growing> Play<Option<T>, View<T::Item, T::Root>> for Fill {
    ghost then = { filled T.list T.root };
}

// A seat draws a ticket.
pub struct Draw;

impl<T: Growing> Play<Option<T>, View<T::Item, T::Root>> for Draw {
    ghost then = { drew };
}

// A seat reads which ticket is served, and takes the slot where it is its own.
pub struct Turn;

impl<T: Growing> Play<Option<T>, View<T::Item, T::Root>> for Turn {
    ghost then = { waited T.list T.root };
}

// A seat reads the count.
pub struct Glance;

impl<T: Growing> Play<Option<T>, View<T::Item, T::Root>> for Glance {
    ghost then = { glanced };
}

// The event of a look: nothing is added to the count.
pub struct Look;

impl<T: Growing> Play<Option<T>, View<T::Item, T::Root>> for Look {
    ghost then = { looked T.list };
}

// The event of a publication: one is added to the count.
pub struct Publish;

impl<T: Growing> Play<Option<T>, View<T::Item, T::Root>> for Publish {
    ghost then = { published T.list };
}

// A seat passes the turn on, and gives the slot back.
pub struct PassOn;

impl<T: Growing> Play<Option<T>, View<T::Item, T::Root>> for PassOn {
    ghost then = { passed_on };
}

// A seat gives its first pass away.
pub struct Cut;

impl<X, Root> Split<View<X, Root>> for Cut {
    ghost left = { rest_of };

    ghost right = { first_of };
}

// A seat takes in the passes of another.
pub struct Glue;

impl<X, Root> Join<View<X, Root>> for Glue {
    ghost both = { both_of };

    ghost spent = { spent };
}

// The steps of one section on the seat of a pass: the ticket, the value out and back, the event, and the turn passed on.

ghost use Rattle.std.specs.Prelude.{◌≡◌, List, ◌++◌, ◌∷◌, ◌%◌, ◌^◌, ◌<◌, ℕ, [], None, Some, length};
ghost use Rattle.pool_lock.specs.declared.view.Known.{Known};
ghost use Rattle.pool_lock.specs.declared.view.Phase.TheVariants.{Idle, Waiting, Served};
ghost use Rattle.pool_lock.specs.Views.{passing, in_phase, known, IsIdle};
ghost use Rattle.pool_lock.specs.Told.{saw};
ghost use Rattle.pool_lock.specs.Sections.{IsWaiting, IsTurn, IsServed, MayReturn, MayAppend, IsBack};

use crate::growing::Growing;
use crate::lock::PoolLock;
use crate::pass::SeatOf;
use crate::pauses::pause;
use crate::plays::{Draw, Look, PassOn, Publish, Turn};
use std::sync::Wait;

impl<T: Growing> PoolLock<T> {
    fn draw(&self, seat: &mut SeatOf<T>) -> u64
        requires own { seat.old.table_id ≡ self.now.table.shared.table_id }
        requires idle { IsIdle seat.old.me }
        ensures own { (seat.new.table_id ≡ seat.old.table_id) × (seat.new.id ≡ seat.old.id) }
        ensures drew { (t : ℕ) × (result ≡ t % 2 ^ 64) × (seat.new.me ≡ (in_phase (Waiting t) seat.old.me.0, [])) }
    {
        self.table.shared.fetch_add::<Draw>(seat, 0, 1)
    }

    // Waits until the ticket is served. The slot is then out with the seat.
    fn wait<R: Wait>(&self, rt: &R, seat: &mut SeatOf<T>, ticket: u64)
        requires own { seat.old.table_id ≡ self.now.table.shared.table_id }
        requires ticket { (t : ℕ) × (ticket ≡ t % 2 ^ 64) × IsWaiting t seat.old.me }
        ensures own { (seat.new.table_id ≡ seat.old.table_id) × (seat.new.id ≡ seat.old.id) }
        ensures served { IsTurn T.list T.root seat.old.me seat.new.me }
    {
        let mut spins = 0;
        for _turn in rt.forever() {
            let found = self.table.shared.load::<Turn>(seat, 1);
            if found == ticket {
                return;
            }
            pause(ticket.wrapping_sub(found), &mut spins);
        }
        unreachable!()
    }

    // The value, out of the slot.
    fn take_out(&self, seat: &mut SeatOf<T>) -> T
        requires own { seat.old.table_id ≡ self.now.table.shared.table_id }
        requires has { (x : T) × (seat.old.me.1 ≡ (0, Some x) ∷ []) }
        ensures own { (seat.new.table_id ≡ seat.old.table_id) × (seat.new.id ≡ seat.old.id) }
        ensures value { seat.old.me.1 ≡ (0, Some result) ∷ [] }
        ensures empty { seat.new.me ≡ (seat.old.me.0, (0, None) ∷ []) }
    {
        match self.table.shared.exchange(seat, 0, None) {
            Some(value) => value,
            None => unreachable!(),
        }
    }

    // The value, back in the slot, which stays out with the seat.
    pub(crate) fn put_back(&self, seat: &mut SeatOf<T>, value: T)
        requires own { seat.old.table_id ≡ self.now.table.shared.table_id }
        requires empty { seat.old.me.1 ≡ (0, None) ∷ [] }
        ensures own { (seat.new.table_id ≡ seat.old.table_id) × (seat.new.id ≡ seat.old.id) }
        ensures full { seat.new.me ≡ (seat.old.me.0, (0, Some value) ∷ []) }
    {
        match self.table.shared.exchange(seat, 0, Some(value)) {
            None => {}
            Some(_) => unreachable!(),
        }
    }

    // Gives the slot back and passes the turn on.
    fn pass_on(&self, seat: &mut SeatOf<T>)
        requires own { seat.old.table_id ≡ self.now.table.shared.table_id }
        requires back { IsBack T.list T.root seat.old.me }
        ensures own { (seat.new.table_id ≡ seat.old.table_id) × (seat.new.id ≡ seat.old.id) }
        ensures passed { seat.new.me ≡ (in_phase Idle seat.old.me.0, []) }
    {
        self.table.shared.fetch_add::<PassOn>(seat, 1, 1);
    }

    // Draws a ticket, waits until it is served, and takes the value.
    pub(crate) fn enter<R: Wait>(&self, rt: &R, seat: &mut SeatOf<T>) -> T
        requires own { seat.old.table_id ≡ self.now.table.shared.table_id }
        requires idle { IsIdle seat.old.me }
        ensures own { (seat.new.table_id ≡ seat.old.table_id) × (seat.new.id ≡ seat.old.id) }
        ensures served { IsServed (T.root result) (T.list result) seat.old.me seat.new.me }
    {
        let ticket = self.draw(seat);
        self.wait(rt, seat, ticket);
        self.take_out(seat)
    }

    // The event of a look, and the end of its section.
    pub(crate) fn leave_looked(&self, seat: &mut SeatOf<T>, value: T)
        requires own { seat.old.table_id ≡ self.now.table.shared.table_id }
        requires served { MayReturn (T.root value) (T.list value) seat.old.me }
        ensures own { (seat.new.table_id ≡ seat.old.table_id) × (seat.new.id ≡ seat.old.id) }
        ensures looked { seat.new.me ≡ (in_phase Idle (saw (T.list value) seat.old.me.0), []) }
    {
        self.put_back(seat, value);
        self.table.shared.fetch_add::<Look>(seat, 2, 0);
        self.pass_on(seat);
    }

    // The event of a publication, and the end of its section: the place of the item.
    pub(crate) fn leave_published(&self, seat: &mut SeatOf<T>, value: T) -> u64
        requires own { seat.old.table_id ≡ self.now.table.shared.table_id }
        requires served { MayAppend (T.root value) (T.list value) seat.old.me }
        requires short { length (T.list value) < 2 ^ 63 }
        ensures own { (seat.new.table_id ≡ seat.old.table_id) × (seat.new.id ≡ seat.old.id) }
        ensures published { (t : ℕ) (p : Known T.Item T.Root) (c : List (ℕ × T.Item)) (item : T.Item) → seat.old.me ≡ (passing p (Served t c), (0, None) ∷ []) → T.list value ≡ c ++ (p.number, item) ∷ [] → (result ≡ length c) × (seat.new.me ≡ (passing (known p.number p.opened p.seen (p.published ++ (length c, item) ∷ [])) Idle, [])) }
    {
        self.put_back(seat, value);
        let at = self.table.shared.fetch_add::<Publish>(seat, 2, 1);
        self.pass_on(seat);
        at
    }

    // The end of a section without an event.
    pub(crate) fn leave(&self, seat: &mut SeatOf<T>, value: T)
        requires own { seat.old.table_id ≡ self.now.table.shared.table_id }
        requires served { MayReturn (T.root value) (T.list value) seat.old.me }
        ensures own { (seat.new.table_id ≡ seat.old.table_id) × (seat.new.id ≡ seat.old.id) }
        ensures same { seat.new.me ≡ (in_phase Idle seat.old.me.0, []) }
    {
        self.put_back(seat, value);
        self.pass_on(seat);
    }
}

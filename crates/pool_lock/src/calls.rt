// Looks and publications.

ghost use Rattle.std.specs.Prelude.{◌≡◌, IsTrue, OnOk, OnErr, MatchResult};
ghost use Rattle.pool_lock.specs.Calls.{IsPassOf, HasCopies, MayPublish, Looked, Published};

use crate::growing::Growing;
use crate::lock::PoolLock;
use crate::pass::Pass;
use crate::plays::Glance;
use lists::NoMemory;
use std::sync::Wait;

impl<T: Growing> PoolLock<T> {
    // Whether the pass has seen the whole list: that is then the event of a look.
    fn glance(&self, pass: &mut Pass<T>) -> bool
        requires { IsPassOf self.now.table.shared.table_id pass.old.number pass.old.seat }
        ensures own { (pass.new.number ≡ pass.old.number) × (pass.new.seat.table_id ≡ pass.old.seat.table_id) }
        ensures same { pass.new.seat.me ≡ pass.old.seat.me }
        ensures looked { IsTrue result → Looked pass.old.seat.me.0 pass.new.seat.me.0 }
    {
        self.table.shared.load::<Glance>(&mut pass.seat, 2) == pass.seen
    }

    // A look in a turn of its own.
    fn look_in_turn<R: Wait>(
        &self,
        rt: &R,
        pass: &mut Pass<T>,
        have: &mut T::Copies,
    ) -> Result<(), NoMemory>
        requires ours { IsPassOf self.now.table.shared.table_id pass.old.number pass.old.seat }
        requires copies { HasCopies T.copied pass.old.seat.me.0 have.old }
        ensures ours { IsPassOf self.now.table.shared.table_id pass.new.number pass.new.seat }
        ensures number { pass.new.number ≡ pass.old.number }
        ensures looked { OnOk result (Looked pass.old.seat.me.0 pass.new.seat.me.0) }
        ensures copies { HasCopies T.copied pass.new.seat.me.0 have.new }
        ensures unchanged { OnErr result (pass.new.seat.me ≡ pass.old.seat.me) }
        ensures kept { OnErr result (have.new ≡ have.old) }
    {
        let value = self.enter(rt, &mut pass.seat);
        match value.copy(have) {
            Ok(()) => {
                pass.seen = value.len();
                self.leave_looked(&mut pass.seat, value);
                Ok(())
            }
            Err(e) => {
                self.leave(&mut pass.seat, value);
                Err(e)
            }
        }
    }

    /// Brings copies of what the pass has seen up to the list at its event. Where nothing is new it reads one word and takes no
    /// turn; else it may wait for other passes. `NoMemory` comes where the copies want memory for something new; lock, pass and
    /// copies are then as before.
    pub fn look<R: Wait>(
        &self,
        rt: &R,
        pass: &mut Pass<T>,
        have: &mut T::Copies,
    ) -> Result<(), NoMemory>
        requires ours { IsPassOf self.now.table.shared.table_id pass.old.number pass.old.seat }
        requires copies { HasCopies T.copied pass.old.seat.me.0 have.old }
        ensures ours { IsPassOf self.now.table.shared.table_id pass.new.number pass.new.seat }
        ensures number { pass.new.number ≡ pass.old.number }
        ensures looked { OnOk result (Looked pass.old.seat.me.0 pass.new.seat.me.0) }
        ensures copies { HasCopies T.copied pass.new.seat.me.0 have.new }
        ensures unchanged { OnErr result (pass.new.seat.me ≡ pass.old.seat.me) }
        ensures kept { OnErr result (have.new ≡ have.old) }
    {
        if self.glance(pass) {
            Ok(())
        } else {
            self.look_in_turn(rt, pass, have)
        }
    }

    /// Appends an item, and answers its place. It may wait for other passes. Without memory the item comes back, and lock and
    /// pass are as before.
    pub fn publish<R: Wait>(
        &self,
        rt: &R,
        pass: &mut Pass<T>,
        item: T::Item,
    ) -> Result<u64, (T::Item, NoMemory)>
        requires ours { IsPassOf self.now.table.shared.table_id pass.old.number pass.old.seat }
        requires fits { MayPublish T.fits pass.old.seat.me.0 item }
        ensures ours { IsPassOf self.now.table.shared.table_id pass.new.number pass.new.seat }
        ensures number { pass.new.number ≡ pass.old.number }
        ensures told { MatchResult result (λ at. Published pass.old.seat.me.0 at item pass.new.seat.me.0) (λ e. (e.0 ≡ item) × (pass.new.seat.me ≡ pass.old.seat.me)) }
    {
        let mut value = self.enter(rt, &mut pass.seat);
        match value.append(pass.number, item) {
            Ok(()) => Ok(self.leave_published(&mut pass.seat, value)),
            Err(back) => {
                self.leave(&mut pass.seat, value);
                Err(back)
            }
        }
    }
}

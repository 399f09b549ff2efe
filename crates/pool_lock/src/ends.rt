// The opening of a lock, and its end.

ghost use Rattle.std.specs.Prelude.{◌≡◌, ◌++◌, ◌∷◌, ◌≤◌, ◌+◌, ℕ, List, [], Some, None, length, IfOk, IfErr, vec_capacity};
ghost use Rattle.pool_lock.specs.declared.view.Known.{Known};
ghost use Rattle.pool_lock.specs.declared.view.Phase.TheVariants.{Empty, Idle};
ghost use Rattle.pool_lock.specs.Weights.{AreBelow};
ghost use Rattle.pool_lock.specs.Views.{view_of, opened_as, beginner, fresh_from, opened_in};
ghost use Rattle.pool_lock.specs.Told.{first_of, rest_of, both_of};
ghost use Rattle.pool_lock.specs.Calls.{numbers_of, ArePassesOf, AreFresh, AllStandIn};
ghost use Rattle.pool_lock.specs.Gathered.{passes_in};

use crate::growing::Growing;
use crate::lock::PoolLock;
use crate::pass::{NumberedSeat, Pass, SeatOf};
use crate::plays::{Cut, Fetch, Fill, Glue};
use atomic_table::Table;
use lists::NoMemory;
use std::alloc::Global;

impl<T: Growing> PoolLock<T> {
    // A lock that has no value yet, and its first seat.
    fn vacant(alloc: Global, passes: u32) -> Result<(PoolLock<T>, SeatOf<T>), NoMemory>
        requires least { 1 ≤ passes }
        requires most { passes ≤ 64 }
        ensures key { IfOk result (λ r. r.0.table.shared.key ≡ passes) }
        ensures own { IfOk result (λ r. r.1.table_id ≡ r.0.table.shared.table_id) }
        ensures seat { IfOk result (λ r. r.1.me ≡ (beginner passes Empty, [])) }
    {
        let (table, seat) = Table::vacant(alloc, &[0, 0, 0], 1, &passes)?;
        Ok((PoolLock { table }, seat))
    }

    // Puts the first value in.
    fn fill(&self, seat: &mut SeatOf<T>, value: T)
        requires own { seat.old.table_id ≡ self.now.table.shared.table_id }
        requires empty { seat.old.me ≡ (beginner self.now.table.shared.key Empty, []) }
        ensures own { (seat.new.table_id ≡ seat.old.table_id) × (seat.new.id ≡ seat.old.id) }
        ensures filled { seat.new.me ≡ (view_of (fresh_from (Some (opened_as (T.root value) (T.list value))) 0 self.now.table.shared.key) Idle, []) }
    {
        let count = value.len();
        self.table.shared.load::<Fetch>(seat, 0);
        self.put_back(seat, value);
        self.table.shared.store::<Fill>(seat, 2, count);
    }

    // A seat for the first pass of a seat, which stands for the others.
    fn split(&self, seat: &mut SeatOf<T>) -> SeatOf<T>
        requires own { seat.old.table_id ≡ self.now.table.shared.table_id }
        requires more { (p : Known T.Item T.Root) × (q : Known T.Item T.Root) × (ps : List (Known T.Item T.Root)) × (seat.old.me ≡ (view_of (p ∷ q ∷ ps) Idle, [])) }
        ensures own { (seat.new.table_id ≡ seat.old.table_id) × (seat.new.id ≡ seat.old.id) × (result.table_id ≡ seat.old.table_id) }
        ensures rest { seat.new.me ≡ (rest_of seat.old.me.0, []) }
        ensures first { result.me ≡ (first_of seat.old.me.0, []) }
    {
        self.table.shared.split_seat::<Cut>(seat)
    }

    // The seat stands for the pass of another too, before its own.
    fn join(&self, seat: &mut SeatOf<T>, other: SeatOf<T>)
        requires own { (seat.old.table_id ≡ self.now.table.shared.table_id) × (other.table_id ≡ self.now.table.shared.table_id) }
        requires idle { (p : Known T.Item T.Root) × (ps : List (Known T.Item T.Root)) × (seat.old.me ≡ (view_of (p ∷ ps) Idle, [])) }
        requires other { (q : Known T.Item T.Root) × (other.me ≡ (view_of (q ∷ []) Idle, [])) }
        ensures own { (seat.new.table_id ≡ seat.old.table_id) × (seat.new.id ≡ seat.old.id) }
        ensures both { seat.new.me ≡ (both_of seat.old.me.0 other.me.0, []) }
    {
        self.table.shared.join_seat::<Glue>(seat, other);
    }

    // Passes for the numbers below a count, from a seat that stands for all of them.
    fn spread(&self, all: &mut Vec<Pass<T>>, first: SeatOf<T>, count: u32)
        requires own { first.table_id ≡ self.now.table.shared.table_id }
        requires fresh { first.me ≡ (view_of (fresh_from (opened_in first.me.0) 0 count) Idle, []) }
        requires empty { all.old.items ≡ [] }
        requires room { count ≤ vec_capacity all.old }
        requires least { 1 ≤ count }
        ensures count { length all.new.items ≡ count }
        ensures fresh { AreFresh self.now.table.shared.table_id (opened_in first.me.0) 0 all.new.items }
    {
        let mut first = first;
        for number in 1..count {
            let seat = self.split(&mut first);
            all.push_reserved(NumberedSeat {
                number: number - 1,
                seen: 0,
                seat,
            });
        }
        all.push_reserved(NumberedSeat {
            number: count - 1,
            seen: 0,
            seat: first,
        });
    }

    /// A lock that has the value, and 1 to 64 passes, numbered from 0, which have seen and published nothing. Without memory the
    /// value comes back.
    pub fn open(
        alloc: Global,
        value: T,
        passes: u32,
    ) -> Result<(PoolLock<T>, Vec<Pass<T>>), (T, NoMemory)>
        requires least { 1 ≤ passes }
        requires most { passes ≤ 64 }
        ensures key { IfOk result (λ r. r.0.table.shared.key ≡ passes) }
        ensures count { IfOk result (λ r. length r.1.items ≡ passes) }
        ensures fresh { IfOk result (λ r. AreFresh r.0.table.shared.table_id (Some (opened_as (T.root value) (T.list value))) 0 r.1.items) }
        ensures back { IfErr result (λ e. e.0 ≡ value) }
    {
        let Ok(mut all) = Vec::with_capacity(alloc, passes as usize) else {
            return Err((value, NoMemory));
        };
        match PoolLock::<T>::vacant(alloc, passes) {
            Err(e) => {
                all.destroy_empty();
                Err((value, e))
            }
            Ok((lock, mut first)) => {
                lock.fill(&mut first, value);
                lock.spread(&mut all, first, passes);
                Ok((lock, all))
            }
        }
    }

    // The seat stands for the passes of all others too, before its own.
    #[tactic(auto, using(crate::proofs::Passes::takes))]
    fn gather(&self, first: &mut SeatOf<T>, others: Vec<Pass<T>>)
        requires own { first.old.table_id ≡ self.now.table.shared.table_id }
        requires idle { (p : Known T.Item T.Root) × (first.old.me ≡ (view_of (p ∷ []) Idle, [])) }
        requires others { ArePassesOf self.now.table.shared.table_id others.items }
        ensures own { first.new.table_id ≡ first.old.table_id }
        ensures idle { (p : Known T.Item T.Root) × (ps : List (Known T.Item T.Root)) × (first.new.me ≡ (view_of (p ∷ ps) Idle, [])) }
        ensures all { first.new.me.0.passes ≡ passes_in others.items ++ first.old.me.0.passes }
    {
        let mut others = others;
        while let Some(other) = others.pop() {
            let NumberedSeat { seat, .. } = other;
            self.join(first, seat);
        }
        others.destroy_empty();
    }

    /// The value comes back from all its passes. It waits for nobody and takes no memory. The passes have the numbers below their
    /// count, each once, and what each has seen and published stands in the value.
    pub fn close(self, passes: Vec<Pass<T>>) -> T
        requires ours { ArePassesOf self.table.shared.table_id passes.items }
        requires all { length passes.items ≡ self.table.shared.key }
        ensures numbers { AreBelow (length passes.items) (numbers_of passes.items) }
        ensures stand { AllStandIn (length passes.items) (T.root result) (T.list result) passes.items }
    {
        let mut others = passes;
        let Some(
            NumberedSeat {
                seat: mut first,
                ..
            },
        ) = others.pop()
        else {
            unreachable!()
        };
        self.gather(&mut first, others);
        let PoolLock { table } = self;
        let mut closed = table.close_with(first);
        let slot = closed.take(0);
        closed.free();
        match slot {
            Some(value) => value,
            None => unreachable!(),
        }
    }
}

// The claims.

ghost use Rattle.std.specs.Prelude.{◌≡◌, ◌++◌, ◌∷◌, ◌≤◌, ◌-◌, ◌+◌, ℕ, List, [], false, length, IfOk, vec_capacity};
ghost use Rattle.pool_lock.specs.Weights.{weigh, upto};
ghost use Rattle.pool_claims.specs.declared.view.Drawn.{Drawn};
ghost use Rattle.pool_claims.specs.Views.{view_of, passing, drawn_as, fresh_passes, first_of, rest_of, both_of, after};
ghost use Rattle.pool_claims.specs.Calls.{IsPassOf, ArePassesOf, AreFresh, HasClaimed, SomeEnded, all_by};
ghost use Rattle.pool_claims.specs.Gathered.{passes_in};

use crate::pass::ClaimPass;
use crate::steps::{Claim, Cut, Glue, Numbers};
use crate::view::{Size, View};
use atomic_table::{Seat, Table};
use lists::NoMemory;
use std::alloc::Global;

/// The numbers below a count, of which each is drawn once.
pub struct Claims {
    table: Table<(), View, Size, Numbers, Global>,
    numbers: u32,
    ghost word: { table.shared.table_id.words ≡ 1 },
    ghost none: { table.shared.table_id.slots ≡ 0 },
    ghost same: { table.shared.key.numbers ≡ numbers },
    ghost some: { 1 ≤ table.shared.key.passes },
}

impl Claims {
    fn draw(&self, seat: &mut Seat<(), View>) -> u64
        requires own { seat.old.table_id ≡ self.now.table.shared.table_id }
        requires unended { (drawn : List ℕ) × (seat.old.me ≡ (passing (drawn_as self.now.numbers drawn 0), [])) }
        ensures own { (seat.new.table_id ≡ seat.old.table_id) × (seat.new.id ≡ seat.old.id) }
        ensures drew { (drawn : List ℕ) → seat.old.me ≡ (passing (drawn_as self.now.numbers drawn 0), []) → seat.new.me ≡ (passing (after result (drawn_as self.now.numbers drawn 0)), []) }
    {
        self.table.shared.fetch_add::<Claim>(seat, 0, 1)
    }

    /// Draws a number. None comes where all are drawn, and wherever the pass had none before. It waits for nobody and takes no
    /// memory.
    pub fn claim(&self, pass: &mut ClaimPass) -> Option<u32>
        requires ours { IsPassOf self.now.table.shared.table_id self.now.numbers pass.old }
        ensures ours { IsPassOf self.now.table.shared.table_id self.now.numbers pass.new }
        ensures claims { HasClaimed self.now.numbers pass.old result pass.new }
    {
        if pass.ended {
            return None;
        }
        let found = self.draw(&mut pass.seat);
        if found < self.numbers as u64 {
            Some(found as u32)
        } else {
            pass.ended = true;
            None
        }
    }

    // A seat for the first pass of a seat, which stands for the others.
    fn split(&self, seat: &mut Seat<(), View>) -> Seat<(), View>
        requires own { seat.old.table_id ≡ self.now.table.shared.table_id }
        requires hands { seat.old.me.1 ≡ [] }
        ensures own { (seat.new.table_id ≡ seat.old.table_id) × (seat.new.id ≡ seat.old.id) × (result.table_id ≡ seat.old.table_id) }
        ensures rest { seat.new.me ≡ (rest_of seat.old.me.0, []) }
        ensures first { result.me ≡ (first_of seat.old.me.0, []) }
    {
        self.table.shared.split_seat::<Cut>(seat)
    }

    // The seat stands for the passes of another too, before its own.
    fn join(&self, seat: &mut Seat<(), View>, other: Seat<(), View>)
        requires own { (seat.old.table_id ≡ self.now.table.shared.table_id) × (other.table_id ≡ self.now.table.shared.table_id) }
        requires hands { (seat.old.me.1 ≡ []) × (other.me.1 ≡ []) }
        ensures own { (seat.new.table_id ≡ seat.old.table_id) × (seat.new.id ≡ seat.old.id) }
        ensures both { seat.new.me ≡ (both_of seat.old.me.0 other.me.0, []) }
    {
        self.table.shared.join_seat::<Glue>(seat, other);
    }

    // Passes from a seat that stands for so many.
    fn spread(&self, all: &mut Vec<ClaimPass>, first: Seat<(), View>, count: u32)
        requires own { first.table_id ≡ self.now.table.shared.table_id }
        requires fresh { first.me ≡ (view_of (fresh_passes self.now.numbers count), []) }
        requires empty { all.old.items ≡ [] }
        requires room { count ≤ vec_capacity all.old }
        requires least { 1 ≤ count }
        ensures count { length all.new.items ≡ count }
        ensures fresh { AreFresh self.now.table.shared.table_id self.now.numbers all.new.items }
    {
        let mut first = first;
        for _made in 1..count {
            let seat = self.split(&mut first);
            all.push_reserved(ClaimPass { ended: false, seat });
        }
        all.push_reserved(ClaimPass {
            ended: false,
            seat: first,
        });
    }

    /// The numbers below a count, and 1 to 64 passes that have drawn nothing.
    pub fn open(
        alloc: Global,
        numbers: u32,
        passes: u32,
    ) -> Result<(Claims, Vec<ClaimPass>), NoMemory>
        requires least { 1 ≤ passes }
        requires most { passes ≤ 64 }
        ensures numbers { IfOk result (λ r. r.0.numbers ≡ numbers) }
        ensures passes { IfOk result (λ r. r.0.table.shared.key.passes ≡ passes) }
        ensures count { IfOk result (λ r. length r.1.items ≡ passes) }
        ensures fresh { IfOk result (λ r. AreFresh r.0.table.shared.table_id numbers r.1.items) }
    {
        let size = Size { numbers, passes };
        let mut all = Vec::with_capacity(alloc, passes as usize)?;
        match Table::of_words(alloc, &[0], &size) {
            Err(e) => {
                all.destroy_empty();
                Err(e.into())
            }
            Ok((table, first)) => {
                let claims = Claims { table, numbers };
                claims.spread(&mut all, first, passes);
                Ok((claims, all))
            }
        }
    }

    // The seat stands for the passes of all others too, before its own.
    #[tactic(auto, using(crate::proofs::Passes::takes))]
    fn gather(&self, first: &mut Seat<(), View>, others: Vec<ClaimPass>)
        requires own { first.old.table_id ≡ self.now.table.shared.table_id }
        requires hands { first.old.me.1 ≡ [] }
        requires others { ArePassesOf self.now.table.shared.table_id self.now.numbers others.items }
        ensures own { first.new.table_id ≡ first.old.table_id }
        ensures all { first.new.me ≡ (view_of (passes_in others.items ++ first.old.me.0.passes), []) }
    {
        let mut others = others;
        while let Some(other) = others.pop() {
            let ClaimPass { ended: _, seat } = other;
            self.join(first, seat);
        }
        others.destroy_empty();
    }

    /// How many numbers were drawn by all passes: those below the answer, each once. It waits for nobody and takes no memory.
    pub fn close(self, passes: Vec<ClaimPass>) -> u32
        requires ours { ArePassesOf self.table.shared.table_id self.numbers passes.items }
        requires all { length passes.items ≡ self.table.shared.key.passes }
        ensures drawn { (h : ℕ → ℕ) → weigh h (all_by passes.items) ≡ weigh h (upto 0 result) }
        ensures most { result ≤ self.numbers }
        ensures ended { SomeEnded passes.items → result ≡ self.numbers }
    {
        let mut others = passes;
        let Some(
            ClaimPass {
                ended: _,
                seat: mut first,
            },
        ) = others.pop()
        else {
            unreachable!()
        };
        self.gather(&mut first, others);
        let Claims { table, numbers } = self;
        let closed = table.close_with(first);
        let word = closed.word(0);
        closed.free();
        if word < numbers as u64 {
            word as u32
        } else {
            numbers
        }
    }
}

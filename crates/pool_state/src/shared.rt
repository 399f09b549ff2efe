// A pool as a value that only grows, for workers who share it under a lock.

ghost use Rattle.std.specs.Prelude.{◌≡◌, ◌++◌, OnOk, OnErr};

use crate::batch::Batch;
use crate::pool::Pool;
use chc_form::{Lemma, System};
use chc_nums::{List, NoMemory};
use pool_lock::Growing;
use std::mem::replace;

impl Growing for Pool {
    ghost use Rattle.pool_state.specs.Items.{items_in, MayFollow, AreCopies, follows};

    type Item = Batch;

    type Root = System;

    type Copies = List<Lemma>;

    ghost root = { λ p. p.system };

    ghost list = { items_in };

    ghost fits = { MayFollow };

    ghost copied = { AreCopies };

    fn len(&self) -> u64 {
        self.kept();
        self.batches().len() as u64
    }

    fn append(&mut self, by: u32, item: Batch) -> Result<(), (Batch, NoMemory)> {
        self.kept();
        match Pool::append(self, by, item) {
            Ok(()) => {
                self.kept();
                Ok(())
            }
            Err(back) => Err(back),
        }
    }

    fn copy(&self, have: &mut List<Lemma>) -> Result<(), NoMemory> {
        self.kept();
        let had = have.len();
        if had == self.lemmas().len() {
            return Ok(());
        }
        match self.copies_from(had) {
            Ok(news) => match append(have, news) {
                Ok(()) => Ok(()),
                Err(e) => Err(e),
            },
            Err(e) => Err(e),
        }
    }

    ghost lasting = { follows };
}

// The list with more lemmas. Without memory it stays as it was.
fn append(list: &mut List<Lemma>, more: Vec<Lemma>) -> Result<(), NoMemory>
    ensures added { OnOk result (list.new ≡ list.old ++ more.items) }
    ensures unchanged { OnErr result (list.new ≡ list.old) }
{
    let mut more = more;
    let mut all = replace(list, List::new(*more.allocator())).into_vec();
    let done = all.append(&mut more);
    *list = List::from_vec(all);
    match done {
        Ok(()) => Ok(()),
        Err(e) => Err(e.into()),
    }
}

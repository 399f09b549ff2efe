// Copies of sums and lemmas.

ghost use Rattle.std.specs.Prelude.{◌≡◌, IfOk};

use crate::lemma::{Lemma, Lit, LitTerm};
use crate::linear::{Lin, Row};
use chc_nums::{List, NoMemory};
use lists::{Copied, all_copied};
use std::alloc::Global;

impl Lin {
    /// A sum that is equal to this one.
    pub fn copy(&self, alloc: Global) -> Result<Lin, NoMemory>
        ensures { IfOk result (λ l. l ≡ self.now) }
    {
        Ok(Lin {
            terms: self.terms.copy(alloc)?,
            konst: self.konst,
        })
    }
}

impl Row {
    /// An inequality that is equal to this one.
    pub fn copy(&self, alloc: Global) -> Result<Row, NoMemory>
        ensures { IfOk result (λ r. r ≡ self.now) }
    {
        Ok(Row {
            lin: self.lin.copy(alloc)?,
        })
    }
}

impl Lemma {
    /// A lemma that is equal to this one.
    pub fn copy(&self, alloc: Global) -> Result<Lemma, NoMemory>
        ensures { IfOk result (λ l. l ≡ self.now) }
    {
        Ok(Lemma {
            pred: self.pred,
            keys: self.keys.copy(alloc)?,
            lits: List::from_vec(all_copied(alloc, self.lits.as_slice())?),
        })
    }
}

impl Copied for Lit {
    fn copied(&self, alloc: Global) -> Result<Lit, NoMemory> {
        Ok(Lit {
            terms: List::from_vec(all_copied(alloc, self.terms.as_slice())?),
            konst: self.konst,
        })
    }
}

impl Copied for LitTerm {
    fn copied(&self, alloc: Global) -> Result<LitTerm, NoMemory> {
        match self {
            LitTerm::Arg(i) => Ok(LitTerm::Arg(*i)),
            LitTerm::Key(i) => Ok(LitTerm::Key(*i)),
            LitTerm::Read(i, keys) => Ok(LitTerm::Read(*i, keys.copy(alloc)?)),
        }
    }
}

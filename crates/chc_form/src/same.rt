// Whether two sums or two lemmas are the same data.

ghost use Rattle.std.specs.Prelude.{◌≡◌, ◌↔◌, IsTrue};

use crate::lemma::{KeyTerm, Lemma, Lit, LitTerm};
use crate::linear::Lin;
use lists::{Same, all_same};

impl Lin {
    /// Whether both have the same terms in the same order and the same constant.
    pub fn is_same(&self, other: &Lin) -> bool
        ensures { IsTrue result ↔ (self.now ≡ other.now) }
    {
        self.konst == other.konst && all_same(self.terms.as_slice(), other.terms.as_slice())
    }
}

impl Lemma {
    /// Whether both are on the same predicate and have the same bound keys and literals in the same order.
    pub fn is_same(&self, other: &Lemma) -> bool
        ensures { IsTrue result ↔ (self.now ≡ other.now) }
    {
        self.pred == other.pred
            && all_same(self.keys.as_slice(), other.keys.as_slice())
            && all_same(self.lits.as_slice(), other.lits.as_slice())
    }
}

impl Same for Lit {
    fn is_same(&self, other: &Lit) -> bool {
        self.konst == other.konst && all_same(self.terms.as_slice(), other.terms.as_slice())
    }
}

impl Same for LitTerm {
    fn is_same(&self, other: &LitTerm) -> bool {
        match self {
            LitTerm::Arg(i) => matches!(other, LitTerm::Arg(j) if i == j),
            LitTerm::Key(i) => matches!(other, LitTerm::Key(j) if i == j),
            LitTerm::Read(i, keys) => match other {
                LitTerm::Read(j, others) => i == j && all_same(keys.as_slice(), others.as_slice()),
                LitTerm::Arg(_) | LitTerm::Key(_) => false,
            },
        }
    }
}

impl Same for KeyTerm {
    fn is_same(&self, other: &KeyTerm) -> bool {
        *self == *other
    }
}

// Whether two systems, or two lists of lemmas, are the same data.

ghost use Rattle.std.specs.Prelude.{◌≡◌, ◌↔◌, IsTrue};

use chc_form::{App, Con, Lemma, Lin, Query, Rule, Sort, System};
use chc_nums::List;
use lists::all_same;

/// What can be told apart, of the types of other crates.
pub trait Alike {
    /// Whether both are the same data.
    fn is_alike(&self, other: &Self) -> bool
        ensures { IsTrue result ↔ (self.now ≡ other.now) };
}

/// Whether two lists have the same entries in the same order.
pub fn all_alike<T: Alike>(a: &[T], b: &[T]) -> bool
    ensures { IsTrue result ↔ (a.now ≡ b.now) }
{
    let mut xs = a;
    let mut ys = b;
    while let [x, more_xs @ ..] = xs {
        match ys {
            [] => return false,
            [y, more_ys @ ..] => {
                if !x.is_alike(y) {
                    return false;
                }
                xs = more_xs;
                ys = more_ys;
            }
        }
    }
    ys.is_empty()
}

impl Alike for Lemma {
    fn is_alike(&self, other: &Lemma) -> bool {
        self.is_same(other)
    }
}

impl Alike for Lin {
    fn is_alike(&self, other: &Lin) -> bool {
        self.is_same(other)
    }
}

impl<T: Alike> Alike for List<T> {
    fn is_alike(&self, other: &List<T>) -> bool {
        all_alike(self.as_slice(), other.as_slice())
    }
}

impl Alike for Sort {
    fn is_alike(&self, other: &Sort) -> bool {
        match self {
            Sort::Whole(ty) => matches!(other, Sort::Whole(its) if ty == its),
            Sort::Free => matches!(other, Sort::Free),
            Sort::Map(keys, ty) => match other {
                Sort::Map(others, its) => {
                    ty == its && all_same(keys.as_slice(), others.as_slice())
                }
                Sort::Whole(_) | Sort::Free => false,
            },
        }
    }
}

impl Alike for Con {
    fn is_alike(&self, other: &Con) -> bool {
        match self {
            Con::Le(a) => matches!(other, Con::Le(b) if a.is_alike(b)),
            Con::Differ(a) => matches!(other, Con::Differ(b) if a.is_alike(b)),
            Con::Mul(a, b, v) => {
                matches!(other, Con::Mul(c, d, w) if v == w && a.is_alike(c) && b.is_alike(d))
            }
            Con::Div(a, b, v) => {
                matches!(other, Con::Div(c, d, w) if v == w && a.is_alike(c) && b.is_alike(d))
            }
            Con::Rem(a, b, v) => {
                matches!(other, Con::Rem(c, d, w) if v == w && a.is_alike(c) && b.is_alike(d))
            }
            Con::Sel(m, keys, v) => {
                matches!(other, Con::Sel(n, others, w) if m == n && v == w && keys.is_alike(others))
            }
            Con::Sto(m, n, keys, value) => {
                matches!(other, Con::Sto(p, q, others, its) if m == p && n == q && keys.is_alike(others) && value.is_alike(its))
            }
            Con::Zero(m) => matches!(other, Con::Zero(n) if m == n),
        }
    }
}

impl Alike for App {
    fn is_alike(&self, other: &App) -> bool {
        self.pred == other.pred && all_same(self.args.as_slice(), other.args.as_slice())
    }
}

impl Alike for Rule {
    fn is_alike(&self, other: &Rule) -> bool {
        self.vars.is_alike(&other.vars)
            && self.body.is_alike(&other.body)
            && self.cons.is_alike(&other.cons)
            && self.head.is_alike(&other.head)
    }
}

impl Alike for Query {
    fn is_alike(&self, other: &Query) -> bool {
        self.target == other.target
            && self.vars.is_alike(&other.vars)
            && self.body.is_alike(&other.body)
            && self.cons.is_alike(&other.cons)
    }
}

impl Alike for System {
    fn is_alike(&self, other: &System) -> bool {
        self.preds.is_alike(&other.preds)
            && self.rules.is_alike(&other.rules)
            && self.queries.is_alike(&other.queries)
    }
}

// Whether values are the same data.

ghost use Rattle.std.specs.Prelude.{◌≡◌, ◌↔◌, IsTrue};

/// What can be told apart.
pub trait Same {
    /// Whether both are the same data.
    fn is_same(&self, other: &Self) -> bool
        ensures { IsTrue result ↔ (self.now ≡ other.now) };
}

/// Whether two lists have the same entries in the same order.
pub fn all_same<T: Same>(a: &[T], b: &[T]) -> bool
    ensures { IsTrue result ↔ (a.now ≡ b.now) }
{
    let mut xs = a;
    let mut ys = b;
    while let [x, more_xs @ ..] = xs {
        match ys {
            [] => return false,
            [y, more_ys @ ..] => {
                if !x.is_same(y) {
                    return false;
                }
                xs = more_xs;
                ys = more_ys;
            }
        }
    }
    ys.is_empty()
}

impl Same for u32 {
    fn is_same(&self, other: &u32) -> bool {
        *self == *other
    }
}

impl Same for i128 {
    fn is_same(&self, other: &i128) -> bool {
        *self == *other
    }
}

impl<A: Same, B: Same> Same for (A, B) {
    fn is_same(&self, other: &(A, B)) -> bool {
        self.0.is_same(&other.0) && self.1.is_same(&other.1)
    }
}

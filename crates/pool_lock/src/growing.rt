// Values that only grow.

ghost use Rattle.std.specs.Prelude.{◌≡◌, ◌++◌, ◌∷◌, ◌<◌, ◌^◌, ℕ, [], length, List, IfErr, OnOk, OnErr};
ghost use Rattle.pool_lock.specs.Entries.{CopiesPrefix};

use lists::NoMemory;

/// A value with a root that no call changes, and a list of items to which more are appended, each with the number of who
/// appends it.
pub trait Growing {
    type Item;

    /// What no call changes.
    type Root;

    /// What a copy of the list is kept in.
    type Copies;

    /// What no call changes.
    ghost root: { Self → Self.Root };

    /// The list: items with the numbers of those who appended them.
    ghost list: { Self → List (ℕ × Self.Item) };

    /// The item may be appended to the list of such a root.
    ghost fits: { Self.Root → List (ℕ × Self.Item) → Self.Item → Type 0 };

    /// The copies stand for the list of such a root.
    ghost copied: { Self.Root → List (ℕ × Self.Item) → Self.Copies → Type 0 };

    /// The length of the list, which is always shorter than 2^63, without memory.
    fn len(&self) -> u64
        ensures is { result ≡ length (list self.now) }
        ensures short { length (list self.now) < 2 ^ 63 };

    /// One item more, in the name of a number. Without memory the item comes back, and all stays as it was.
    fn append(&mut self, by: u32, item: Self::Item) -> Result<(), (Self::Item, NoMemory)>
        requires { fits (root self.old) (list self.old) item }
        ensures root { root self.new ≡ root self.old }
        ensures added { OnOk result (list self.new ≡ list self.old ++ (by, item) ∷ []) }
        ensures short { OnOk result (length (list self.new) < 2 ^ 63) }
        ensures unchanged { OnErr result (list self.new ≡ list self.old) }
        ensures back { IfErr result (λ e. e.0 ≡ item) };

    /// The copies of a beginning of the list become those of the whole. It takes no memory where nothing is new, and without
    /// memory the copies stay.
    fn copy(&self, have: &mut Self::Copies) -> Result<(), NoMemory>
        requires { CopiesPrefix (copied (root self.now)) (list self.now) have.old }
        ensures whole { OnOk result (copied (root self.now) (list self.now) have.new) }
        ensures unchanged { OnErr result (have.new ≡ have.old) }
        ensures news { OnErr result (copied (root self.now) (list self.now) have.old → ⊥) };

    /// An item that fits a list fits each longer one.
    ghost lasting: { (r : Self.Root) (front more : List (ℕ × Self.Item)) (item : Self.Item) → fits r front item → fits r (front ++ more) item };
}

// What the answers say of each other.

ghost use Rattle.std.specs.Prelude.{◌≡◌, ◌≤◌, ◌⊎◌, ℕ, List, Option, Some, None, Ok, Err};
ghost use Rattle.std.specs.List.{Contains};
ghost use Rattle.sol_tree.specs.declared.file.Unit as units;
ghost use Rattle.sol_tree.specs.declared.types.Identifier.{Identifier};
ghost use Rattle.sol_names.specs.declared.lineage.Lineage.{Lineage};
ghost use Rattle.sol_names.specs.declared.fault.NameFault.{NameFault};
ghost use Rattle.sol_names.specs.declared.fault.NameFault.TheVariants as fault;
ghost use Rattle.sol_names.specs.Linearization.{Linearizes};
ghost use Rattle.sol_names.specs.Least.{least_in};
ghost use Rattle.sol_names.specs.Orders.{Orders};

/// A unit has at most one linearization. The answers of `order` on a file exclude each other, but for want of memory: one
/// linearization, or one fault at one place. The least of some numbers is one of them, and at most each.
#[tactic(auto, using(crate::proofs::OneAnswer::answers))]
pub fn order_laws()
    ensures unique { (g : List (List ℕ)) (u : ℕ) (o p : List ℕ) → Linearizes g u o → Linearizes g u p → o ≡ p }
    ensures lineage { (us : List units.Unit) (name : Option (List ℕ)) (l m : Lineage) → Orders us name (Ok l) → Orders us name (Ok m) → l ≡ m }
    ensures either { (us : List units.Unit) (name : Option (List ℕ)) (l : Lineage) (e : NameFault) → Orders us name (Ok l) → Orders us name (Err e) → e ≡ fault.NoMemory }
    ensures fault { (us : List units.Unit) (name : Option (List ℕ)) (d e : NameFault) → Orders us name (Err d) → Orders us name (Err e) → (d ≡ e) ⊎ ((d ≡ fault.NoMemory) ⊎ (e ≡ fault.NoMemory)) }
    ensures least { (ns : List ℕ) (n : ℕ) → least_in ns ≡ Some n → Contains ns n }
    ensures lesser { (ns : List ℕ) (n m : ℕ) → least_in ns ≡ Some n → Contains ns m → n ≤ m }
    ensures none { (ns : List ℕ) (m : ℕ) → least_in ns ≡ None → Contains ns m → ⊥ }
{}

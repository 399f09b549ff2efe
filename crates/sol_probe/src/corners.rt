// The corner values of types.

ghost use Rattle.std.specs.Prelude.{◌≡◌, ◌∷◌, [], ◌++◌, pos, IsTrue, IfOk, OnOk};
ghost use Rattle.std.specs.Ordering.{int_eq};
ghost use Rattle.chc_nums.specs.Types.{least, greatest};
ghost use Rattle.sol_eval.specs.Sized.{type_sized};
ghost use Rattle.sol_probe.specs.Probes.{unless, corners};

use chc_nums::{List, NoMemory, Ty, range};
use std::alloc::Global;

/// A type's least value, 0, 1 and its greatest, each once.
#[tactic(auto, unfolding(crate::specs::Probes::corners))]
pub fn corners(alloc: Global, ty: Ty) -> Result<List<i128>, NoMemory>
    ensures { IfOk result (λ vs. vs ≡ corners ty) }
{
    if !is_sized(ty) {
        return Ok(List::new(alloc));
    }
    sized_corners(alloc, ty)
}

fn is_sized(ty: Ty) -> bool
    ensures { result ≡ type_sized ty }
{
    match ty {
        Ty::Bool | Ty::Addr => true,
        Ty::Uint(size) | Ty::Int(size) => size >= 1 && size <= 12,
    }
}

#[tactic(auto, using(sol_eval::proofs::Sizes::type_size))]
fn sized_corners(alloc: Global, ty: Ty) -> Result<List<i128>, NoMemory>
    requires { IsTrue (type_sized ty) }
    ensures { IfOk result
        (λ vs. vs ≡ unless (int_eq (least ty) (pos 0)) (least ty) (pos 0 ∷ unless (int_eq (greatest ty) (pos 1)) (pos 1) (greatest ty ∷ []))) }
{
    let (low, high) = range(ty);
    between(alloc, low, high)
}

fn between(alloc: Global, low: i128, high: i128) -> Result<List<i128>, NoMemory>
    ensures { IfOk result
        (λ vs. vs ≡ unless (int_eq low (pos 0)) low (pos 0 ∷ unless (int_eq high (pos 1)) (pos 1) (high ∷ []))) }
{
    let mut all = from_least(alloc, low)?;
    add_greatest(&mut all, high)?;
    Ok(all)
}

fn from_least(alloc: Global, low: i128) -> Result<List<i128>, NoMemory>
    ensures { IfOk result (λ vs. vs ≡ unless (int_eq low (pos 0)) low (pos 0 ∷ [])) }
{
    let mut all = List::new(alloc);
    if low != 0 {
        all.push(low)?;
    }
    all.push(0)?;
    Ok(all)
}

fn add_greatest(all: &mut List<i128>, high: i128) -> Result<(), NoMemory>
    ensures { OnOk result
        (all.new ≡ all.old ++ unless (int_eq high (pos 1)) (pos 1) (high ∷ [])) }
{
    if high != 1 {
        all.push(1)?;
    }
    all.push(high)
}

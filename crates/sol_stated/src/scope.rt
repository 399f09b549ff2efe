// Locals, and where they can be named.

ghost use Rattle.std.specs.Prelude.{◌≡◌, drop};
ghost use Rattle.sol_judged.specs.Judged.{sound};
ghost use Rattle.sol_stated.specs.Checks.{Checks, Works};
ghost use Rattle.sol_stated.specs.Contexts.{OfType};
ghost use Rattle.sol_stated.specs.Scopes.{start, closed_to, local, declared, unnamed, fresh};
ghost use Rattle.sol_stated.specs.Declarations.{named_local};

use lists::{List, Name};
use sol_judged::{Binding, Meaning, Rule, TypeFault, ValueType, last_binding};
use sol_tree::Identifier;
use std::alloc::Global;
use std::mem;

/// The locals that can be named, those of the innermost scope from a place on, and how many locals there are so far.
#[derive(Drop)]
pub struct Scope {
    pub visible: List<Binding>,
    pub from: usize,
    pub count: u32,
}

impl Scope {
    /// No locals.
    pub fn new(alloc: Global) -> Scope
        ensures { result ≡ start }
    {
        Scope {
            visible: List::new(alloc),
            from: 0,
            count: 0,
        }
    }
}

fn from(bindings: &[Binding], at: usize) -> &[Binding]
    ensures { result.now ≡ drop at bindings.now }
{
    if at <= bindings.len() {
        &bindings[at..]
    } else {
        &[]
    }
}

/// No local of the innermost scope has this name.
#[tactic(auto, unfolding(crate::specs::Scopes::fresh))]
pub fn check_fresh(at: u32, name: &Name, scope: &Scope) -> Result<(), TypeFault>
    ensures { Checks (fresh at name.now scope.now) result }
{
    match last_binding(from(scope.visible.as_slice(), scope.from), name.as_str()) {
        None => Ok(()),
        Some(_) => Err(TypeFault::Broken {
            rule: Rule::LocalTwice,
            at,
        }),
    }
}

/// One more local, without a name.
pub fn declare_unnamed(scope: &mut Scope) -> Result<(), TypeFault>
    ensures { Works (sound (unnamed scope.old)) result scope.new }
{
    match scope.count.checked_add(1) {
        None => Err(TypeFault::NoMemory),
        Some(count) => {
            scope.count = count;
            Ok(())
        }
    }
}

// One more local, with a name.
fn declare(alloc: Global, name: &Name, ty: ValueType, scope: &mut Scope) -> Result<(), TypeFault>
    ensures { Works (sound (declared name.now (local scope.old (OfType ty)) scope.old)) result scope.new }
{
    let meaning = Meaning::Local(scope.count, ty);
    let name = name.copy(alloc)?;
    scope.visible.push(Binding { name, meaning })?;
    declare_unnamed(scope)
}

/// A new local of a type, whose name no other one of the innermost scope has.
#[tactic(auto, using(sol_judged::proofs::Faults::faults), unfolding(crate::specs::Declarations::named_local))]
pub fn declare_named(
    alloc: Global,
    ty: ValueType,
    name: &Identifier,
    scope: &mut Scope,
) -> Result<(), TypeFault>
    ensures { Works (named_local (OfType ty) name.now scope.old) result scope.new }
{
    check_fresh(name.at, &name.name, scope)?;
    declare(alloc, &name.name, ty, scope)
}

/// So many locals stay visible, and those from a place on are of the innermost scope.
pub fn close_to(alloc: Global, kept: usize, from: usize, scope: &mut Scope)
    ensures { scope.new ≡ closed_to kept from scope.old }
{
    let mut held = mem::replace(&mut scope.visible, List::new(alloc)).into_vec();
    held.truncate(kept);
    scope.visible = List::from_vec(held);
    scope.from = from;
}

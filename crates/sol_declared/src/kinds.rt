// Which members a unit may have.

ghost use Rattle.std.specs.Prelude.{◌≡◌};
ghost use Rattle.sol_judged.specs.declared.fault.TypeFault.TheVariants as fault;
ghost use Rattle.sol_judged.specs.declared.rules.Rule.TheVariants as rule;
ghost use Rattle.sol_stated.specs.Checks.{Checks};
ghost use Rattle.sol_declared.specs.MemberKinds.{has_no_body, interface_member, concrete_member, member_kind};

use crate::specifiers::has_external;
use sol_judged::{Rule, TypeFault};
use sol_tree::{Block, Member};

/// What a unit is.
#[derive(Clone, Copy, Debug, PartialEq, Eq)]
pub enum UnitKind {
    Interface,
    /// An abstract contract.
    Abstract,
    /// A contract that isn't abstract.
    Concrete,
}

fn misplaced(at: u32) -> TypeFault
    ensures { result ≡ fault.Broken rule.MemberKind at }
{
    TypeFault::Broken {
        rule: Rule::MemberKind,
        at,
    }
}

fn has_no_body(body: &Option<Block>) -> bool
    ensures { result ≡ has_no_body body.now }
{
    match body {
        None => true,
        Some(_) => false,
    }
}

fn check_interface_member(member: &Member) -> Result<(), TypeFault>
    ensures { Checks (interface_member member.now) result }
{
    match member {
        Member::Var { at, .. } => Err(misplaced(*at)),
        Member::Fun { at, fun } => {
            if has_no_body(&fun.body) && has_external(fun.specifiers.as_slice()) {
                Ok(())
            } else {
                Err(misplaced(*at))
            }
        }
        Member::Constructor { at, .. } => Err(misplaced(*at)),
        Member::Modifier { at, .. } => Err(misplaced(*at)),
        Member::Event { .. } => Ok(()),
        Member::Error { .. } => Ok(()),
    }
}

fn check_concrete_member(member: &Member) -> Result<(), TypeFault>
    ensures { Checks (concrete_member member.now) result }
{
    match member {
        Member::Fun { at, fun } => {
            if has_no_body(&fun.body) {
                Err(misplaced(*at))
            } else {
                Ok(())
            }
        }
        _ => Ok(()),
    }
}

/// A member may stand in a unit of a kind.
pub fn check_kind(kind: UnitKind, member: &Member) -> Result<(), TypeFault>
    ensures { Checks (member_kind kind member.now) result }
{
    match kind {
        UnitKind::Interface => check_interface_member(member),
        UnitKind::Abstract => Ok(()),
        UnitKind::Concrete => check_concrete_member(member),
    }
}

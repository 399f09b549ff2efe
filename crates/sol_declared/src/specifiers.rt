// The marks of functions, variables and modifiers.

ghost use Rattle.std.specs.Prelude.{◌≡◌, map};
ghost use Rattle.sol_judged.specs.Settings.{setting};
ghost use Rattle.sol_stated.specs.Checks.{Checks, all_checks};
ghost use Rattle.sol_declared.specs.Specifiers.{how_many, is_there, is_visibility, is_external, is_view, is_pure, function_specifiers, is_var_visibility, is_constant, is_immutable, variable_specifiers, overridden, overridden_name, override_names, function_override, variable_override, modifier_override};

use sol_judged::{Meaning, Rule, Surroundings, TypeFault, meaning_of};
use sol_tree::{Fun, FunSpecifier, Identifier, ModifierSpecifier, Override, Var, VarSpecifier};

// ---- functions

fn is_visibility(mark: &FunSpecifier) -> bool
    ensures { result ≡ is_visibility mark.now }
{
    matches!(
        mark,
        FunSpecifier::Public { .. }
            | FunSpecifier::External { .. }
            | FunSpecifier::Internal { .. }
            | FunSpecifier::Private { .. }
    )
}

fn is_external(mark: &FunSpecifier) -> bool
    ensures { result ≡ is_external mark.now }
{
    matches!(mark, FunSpecifier::External { .. })
}

fn is_view(mark: &FunSpecifier) -> bool
    ensures { result ≡ is_view mark.now }
{
    matches!(mark, FunSpecifier::View { .. })
}

fn is_pure(mark: &FunSpecifier) -> bool
    ensures { result ≡ is_pure mark.now }
{
    matches!(mark, FunSpecifier::Pure { .. })
}

fn visibilities(marks: &[FunSpecifier]) -> usize
    ensures { result ≡ how_many is_visibility marks.now }
{
    let mut count: usize = 0;
    for mark in marks {
        if is_visibility(mark) {
            count += 1;
        }
    }
    count
}

/// Whether one of the marks is `external`.
pub fn has_external(marks: &[FunSpecifier]) -> bool
    ensures { result ≡ is_there is_external marks.now }
{
    let mut rest = marks;
    while let [mark, more @ ..] = rest {
        if is_external(mark) {
            return true;
        }
        rest = more;
    }
    false
}

fn has_view(marks: &[FunSpecifier]) -> bool
    ensures { result ≡ is_there is_view marks.now }
{
    let mut rest = marks;
    while let [mark, more @ ..] = rest {
        if is_view(mark) {
            return true;
        }
        rest = more;
    }
    false
}

fn has_pure(marks: &[FunSpecifier]) -> bool
    ensures { result ≡ is_there is_pure marks.now }
{
    let mut rest = marks;
    while let [mark, more @ ..] = rest {
        if is_pure(mark) {
            return true;
        }
        rest = more;
    }
    false
}

/// A function has one visibility, and is not both view and pure.
#[tactic(auto, unfolding(crate::specs::Specifiers::function_specifiers))]
pub fn check_function_specifiers(fun: &Fun) -> Result<(), TypeFault>
    ensures { Checks (function_specifiers fun.now) result }
{
    let marks = fun.specifiers.as_slice();
    if visibilities(marks) == 1 && !(has_view(marks) && has_pure(marks)) {
        Ok(())
    } else {
        Err(TypeFault::Broken {
            rule: Rule::Specifiers,
            at: fun.name.at,
        })
    }
}

// ---- variables

fn is_var_visibility(mark: &VarSpecifier) -> bool
    ensures { result ≡ is_var_visibility mark.now }
{
    matches!(
        mark,
        VarSpecifier::Public { .. } | VarSpecifier::Internal { .. } | VarSpecifier::Private { .. }
    )
}

fn is_constant(mark: &VarSpecifier) -> bool
    ensures { result ≡ is_constant mark.now }
{
    matches!(mark, VarSpecifier::Constant { .. })
}

fn is_immutable(mark: &VarSpecifier) -> bool
    ensures { result ≡ is_immutable mark.now }
{
    matches!(mark, VarSpecifier::Immutable { .. })
}

fn var_visibilities(marks: &[VarSpecifier]) -> usize
    ensures { result ≡ how_many is_var_visibility marks.now }
{
    let mut count: usize = 0;
    for mark in marks {
        if is_var_visibility(mark) {
            count += 1;
        }
    }
    count
}

/// Whether one of the marks is `constant`.
pub fn has_constant(marks: &[VarSpecifier]) -> bool
    ensures { result ≡ is_there is_constant marks.now }
{
    let mut rest = marks;
    while let [mark, more @ ..] = rest {
        if is_constant(mark) {
            return true;
        }
        rest = more;
    }
    false
}

fn has_immutable(marks: &[VarSpecifier]) -> bool
    ensures { result ≡ is_there is_immutable marks.now }
{
    let mut rest = marks;
    while let [mark, more @ ..] = rest {
        if is_immutable(mark) {
            return true;
        }
        rest = more;
    }
    false
}

/// A variable has at most one visibility, and is not both constant and immutable.
#[tactic(auto, unfolding(crate::specs::Specifiers::variable_specifiers))]
pub fn check_variable_specifiers(var: &Var) -> Result<(), TypeFault>
    ensures { Checks (variable_specifiers var.now) result }
{
    let marks = var.specifiers.as_slice();
    if var_visibilities(marks) < 2 && !(has_constant(marks) && has_immutable(marks)) {
        Ok(())
    } else {
        Err(TypeFault::Broken {
            rule: Rule::Specifiers,
            at: var.name.at,
        })
    }
}

// ---- `override`

fn check_overridden(at: u32, meaning: Option<Meaning>) -> Result<(), TypeFault>
    ensures { Checks (overridden at meaning) result }
{
    match meaning {
        Some(Meaning::Contract(_)) => Ok(()),
        Some(Meaning::Interface(_)) => Ok(()),
        Some(Meaning::Faulty(rule, place)) => Err(TypeFault::Broken { rule, at: place }),
        _ => Err(TypeFault::Broken {
            rule: Rule::Naming,
            at,
        }),
    }
}

fn check_overridden_name(w: &Surroundings<'_>, name: &Identifier) -> Result<(), TypeFault>
    ensures { Checks (overridden_name (setting w.now) name.now) result }
{
    check_overridden(name.at, meaning_of(w, name.name.as_str()))
}

#[tactic(auto, using(sol_stated::proofs::Turns::checks))]
fn check_names(w: &Surroundings<'_>, specifier: &Override) -> Result<(), TypeFault>
    ensures { Checks (override_names (setting w.now) specifier.now) result }
{
    for name in specifier.names.as_slice() {
        check_overridden_name(w, name)?;
    }
    Ok(())
}

fn check_function_override(w: &Surroundings<'_>, mark: &FunSpecifier) -> Result<(), TypeFault>
    ensures { Checks (function_override (setting w.now) mark.now) result }
{
    match mark {
        FunSpecifier::Override { specifier, .. } => check_names(w, specifier),
        _ => Ok(()),
    }
}

/// The names in the `override` of a function.
#[tactic(auto, using(sol_stated::proofs::Turns::checks))]
pub fn check_function_overrides(
    w: &Surroundings<'_>,
    marks: &[FunSpecifier],
) -> Result<(), TypeFault>
    ensures { Checks (all_checks (map (function_override (setting w.now)) marks.now)) result }
{
    for mark in marks {
        check_function_override(w, mark)?;
    }
    Ok(())
}

fn check_variable_override(w: &Surroundings<'_>, mark: &VarSpecifier) -> Result<(), TypeFault>
    ensures { Checks (variable_override (setting w.now) mark.now) result }
{
    match mark {
        VarSpecifier::Override { specifier, .. } => check_names(w, specifier),
        _ => Ok(()),
    }
}

/// The names in the `override` of a variable.
#[tactic(auto, using(sol_stated::proofs::Turns::checks))]
pub fn check_variable_overrides(
    w: &Surroundings<'_>,
    marks: &[VarSpecifier],
) -> Result<(), TypeFault>
    ensures { Checks (all_checks (map (variable_override (setting w.now)) marks.now)) result }
{
    for mark in marks {
        check_variable_override(w, mark)?;
    }
    Ok(())
}

fn check_modifier_override(w: &Surroundings<'_>, mark: &ModifierSpecifier) -> Result<(), TypeFault>
    ensures { Checks (modifier_override (setting w.now) mark.now) result }
{
    match mark {
        ModifierSpecifier::Override { specifier, .. } => check_names(w, specifier),
        _ => Ok(()),
    }
}

/// The names in the `override` of a modifier.
#[tactic(auto, using(sol_stated::proofs::Turns::checks))]
pub fn check_modifier_overrides(
    w: &Surroundings<'_>,
    marks: &[ModifierSpecifier],
) -> Result<(), TypeFault>
    ensures { Checks (all_checks (map (modifier_override (setting w.now)) marks.now)) result }
{
    for mark in marks {
        check_modifier_override(w, mark)?;
    }
    Ok(())
}

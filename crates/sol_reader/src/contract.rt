// Contracts, from the trees of files.

ghost use Rattle.std.specs.Prelude.{◌≡◌, ◌≤◌, [], length};
ghost use Rattle.chc_nums.specs.declared.limits.TheConstants.{MAX_VARIABLES};
ghost use Rattle.sol_reader.specs.Reading.{Gives, all_onto, size_of, is_bare, var_of, variable_in, is_public, is_open, fun_of, function_in, leading, with_functions, members_of, unit_of, units_of, step_of};

use crate::fault::ReadFault;
use crate::lines::Lines;
use crate::step::step_of;
use chc_nums::{List, MAX_VARIABLES, Name, Ty};
use sol_first::{Contract, Function, Step, Variable};
use sol_tree::{File, Fun, FunSpecifier, Member, Stmt, Type, Unit, Var};
use std::alloc::Global;

// The bytes of an unsigned type.
#[tactic(auto, unfolding(crate::specs::Reading::size_of))]
fn size_of(ty: &Type) -> Option<u8>
    ensures { result ≡ size_of ty.now }
{
    match ty {
        Type::Elementary {
            ty: Ty::Uint(size),
            ..
        } => Some(*size),
        _ => None,
    }
}

// Whether a variable has no specifiers and no initial value.
fn is_bare(var: &Var) -> bool
    ensures { result ≡ is_bare var.now }
{
    var.specifiers.is_empty() && var.initial.is_none()
}

fn var_of(alloc: Global, var: &Var) -> Result<Variable, ReadFault>
    ensures { Gives result (var_of var.now) }
{
    if !is_bare(var) {
        return Err(ReadFault::NotBuilt);
    }
    let Some(size) = size_of(&var.ty) else {
        return Err(ReadFault::NotBuilt);
    };
    let name = var.name.name.copy(alloc)?;
    Ok(Variable { size, name })
}

fn variable_in(alloc: Global, member: &Member) -> Result<Variable, ReadFault>
    ensures { Gives result (variable_in member.now) }
{
    match member {
        Member::Var { var, .. } => var_of(alloc, var),
        _ => Err(ReadFault::NotBuilt),
    }
}

fn variables_in(alloc: Global, members: &[Member]) -> Result<List<Variable>, ReadFault>
    ensures { Gives result (all_onto variable_in [] members.now) }
{
    let mut variables = List::new(alloc);
    let mut rest = members;
    while let [member, more @ ..] = rest {
        variables.push(variable_in(alloc, member)?)?;
        rest = more;
    }
    Ok(variables)
}

fn is_public(specifiers: &[FunSpecifier]) -> bool
    ensures { result ≡ is_public specifiers.now }
{
    match specifiers {
        [FunSpecifier::Public { .. }] => true,
        _ => false,
    }
}

// Whether a function is public, with no other specifier, no parameters and nothing to return.
fn is_open(fun: &Fun) -> bool
    ensures { result ≡ is_open fun.now }
{
    fun.params.is_empty() && is_public(fun.specifiers.as_slice()) && fun.returns.is_none()
}

fn steps_in(
    alloc: Global,
    lines: &Lines<'_>,
    variables: &[Variable],
    statements: &[Stmt],
) -> Result<List<Step>, ReadFault>
    requires { length variables.now ≤ MAX_VARIABLES }
    ensures { Gives result (all_onto (step_of lines.now variables.now) [] statements.now) }
{
    let mut steps = List::new(alloc);
    let mut rest = statements;
    while let [statement, more @ ..] = rest {
        let Some(step) = step_of(lines, variables, statement) else {
            return Err(ReadFault::NotBuilt);
        };
        steps.push(step)?;
        rest = more;
    }
    Ok(steps)
}

fn fun_of(
    alloc: Global,
    lines: &Lines<'_>,
    variables: &[Variable],
    fun: &Fun,
) -> Result<Function, ReadFault>
    requires { length variables.now ≤ MAX_VARIABLES }
    ensures { Gives result (fun_of lines.now variables.now fun.now) }
{
    if !is_open(fun) {
        return Err(ReadFault::NotBuilt);
    }
    let Some(body) = &fun.body else {
        return Err(ReadFault::NotBuilt);
    };
    let steps = steps_in(alloc, lines, variables, body.statements.as_slice())?;
    let name = fun.name.name.copy(alloc)?;
    Ok(Function { name, steps })
}

#[tactic(auto, unfolding(crate::specs::Reading::function_in))]
fn function_in(
    alloc: Global,
    lines: &Lines<'_>,
    variables: &[Variable],
    member: &Member,
) -> Result<Function, ReadFault>
    requires { length variables.now ≤ MAX_VARIABLES }
    ensures { Gives result (function_in lines.now variables.now member.now) }
{
    match member {
        Member::Fun { fun, .. } => fun_of(alloc, lines, variables, fun),
        _ => Err(ReadFault::NotBuilt),
    }
}

fn functions_in(
    alloc: Global,
    lines: &Lines<'_>,
    variables: &[Variable],
    members: &[Member],
) -> Result<List<Function>, ReadFault>
    requires { length variables.now ≤ MAX_VARIABLES }
    ensures { Gives result (all_onto (function_in lines.now variables.now) [] members.now) }
{
    let mut functions = List::new(alloc);
    let mut rest = members;
    while let [member, more @ ..] = rest {
        functions.push(function_in(alloc, lines, variables, member)?)?;
        rest = more;
    }
    Ok(functions)
}

// How many members are variables before the first that is none.
fn leading(members: &[Member]) -> usize
    ensures value { result ≡ leading members.now }
    ensures bound { result ≤ length members.now }
{
    let mut count = 0;
    let mut rest = members;
    while let [Member::Var { .. }, more @ ..] = rest {
        count += 1;
        rest = more;
    }
    count
}

fn with_functions(
    alloc: Global,
    lines: &Lines<'_>,
    name: &Name,
    variables: List<Variable>,
    members: &[Member],
) -> Result<Contract, ReadFault>
    requires { length variables ≤ MAX_VARIABLES }
    ensures { Gives result (with_functions lines.now name.now variables members.now) }
{
    let functions = functions_in(alloc, lines, variables.as_slice(), members)?;
    let name = name.copy(alloc)?;
    Ok(Contract {
        name,
        variables,
        functions,
    })
}

#[tactic(auto, unfolding(crate::specs::Reading::members_of))]
fn members_of(
    alloc: Global,
    lines: &Lines<'_>,
    name: &Name,
    members: &[Member],
) -> Result<Contract, ReadFault>
    ensures { Gives result (members_of lines.now name.now members.now) }
{
    let count = leading(members);
    let variables = variables_in(alloc, &members[..count])?;
    if variables.len() <= MAX_VARIABLES {
        with_functions(alloc, lines, name, variables, &members[count..])
    } else {
        Err(ReadFault::NotBuilt)
    }
}

fn unit_of(alloc: Global, lines: &Lines<'_>, unit: &Unit) -> Result<Contract, ReadFault>
    ensures { Gives result (unit_of lines.now unit.now) }
{
    match unit {
        Unit::Contract {
            is_abstract: false,
            name,
            bases,
            members,
            ..
        } => {
            if !bases.is_empty() {
                return Err(ReadFault::NotBuilt);
            }
            members_of(alloc, lines, &name.name, members.as_slice())
        }
        _ => Err(ReadFault::NotBuilt),
    }
}

/// The contract of a file's only unit.
pub fn contract_of(alloc: Global, lines: &Lines<'_>, file: &File) -> Result<Contract, ReadFault>
    ensures { Gives result (units_of lines.now file.now.units) }
{
    match file.units.as_slice() {
        [unit] => unit_of(alloc, lines, unit),
        _ => Err(ReadFault::NotBuilt),
    }
}

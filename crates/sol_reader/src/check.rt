// Which contracts the language has.

ghost use Rattle.std.specs.Prelude.{◌≡◌, ◌≤◌, ◌++◌, ◌↔◌, IsTrue, length};
ghost use Rattle.std.specs.List.{All};
ghost use Rattle.chc_nums.specs.Types.{InRange, IsSize};
ghost use Rattle.chc_nums.specs.declared.typed.Ty.TheVariants as ty;
ghost use Rattle.chc_nums.specs.declared.limits.TheConstants.{MAX_STATEMENTS};
ghost use Rattle.sol_first.specs.Typed.{IsDeclared, IsValue, StepTyped, size_at};
ghost use Rattle.sol_reader.specs.Reading.{FunctionTyped};
ghost use Rattle.sol_reader.specs.Language.{Absent, Differ, variable_names, function_names, step_count, IsGood};

use chc_nums::{MAX_FUNCTIONS, MAX_STATEMENTS, MAX_VARIABLES, Name, Ty, range};
use sol_first::{Contract, Function, Step, Variable};

// Whether a number of bytes is that of a type.
fn is_size(size: u8) -> bool
    ensures { IsTrue result ↔ IsSize size }
{
    1 <= size && size <= 12
}

#[tactic(auto, using(crate::proofs::Each::each))]
fn are_sized(variables: &[Variable]) -> bool
    ensures { IsTrue result ↔ All (λ v. IsSize v.size) variables.now }
{
    let mut rest = variables;
    while let [variable, more @ ..] = rest {
        if !is_size(variable.size) {
            return false;
        }
        rest = more;
    }
    true
}

// The size of the variable at a place, or 0 where none is declared.
fn size_at(variables: &[Variable], place: u32) -> u8
    ensures { result ≡ size_at variables.now place }
{
    match variables.get(place as usize) {
        None => 0,
        Some(variable) => variable.size,
    }
}

fn is_declared(variables: &[Variable], place: u32) -> bool
    ensures { IsTrue result ↔ IsDeclared variables.now place }
{
    (place as usize) < variables.len()
}

fn is_of_size(size: u8, number: i128) -> bool
    requires { IsSize size }
    ensures { IsTrue result ↔ InRange (ty.Uint size) number }
{
    let (least, greatest) = range(Ty::Uint(size));
    least <= number && number <= greatest
}

// Whether a variable is declared and a number is one of its values.
#[tactic(auto, using(crate::proofs::Each::sizes))]
fn is_test(variables: &[Variable], place: u32, number: i128) -> bool
    requires { All (λ v. IsSize v.size) variables.now }
    ensures { IsTrue result ↔ (IsDeclared variables.now place × IsValue variables.now place number) }
{
    is_declared(variables, place) && is_of_size(size_at(variables, place), number)
}

// Whether two variables are declared and the first is as wide as the second.
fn is_move(variables: &[Variable], to: u32, from: u32) -> bool
    ensures { IsTrue result ↔ (IsDeclared variables.now to × IsDeclared variables.now from × (size_at variables.now from ≤ size_at variables.now to)) }
{
    is_declared(variables, to)
        && is_declared(variables, from)
        && size_at(variables, from) <= size_at(variables, to)
}

fn is_change(variables: &[Variable], to: u32, from: u32, number: i128) -> bool
    requires { All (λ v. IsSize v.size) variables.now }
    ensures { IsTrue result ↔ (IsDeclared variables.now to × IsDeclared variables.now from × (size_at variables.now from ≤ size_at variables.now to) × IsValue variables.now from number) }
{
    is_move(variables, to, from) && is_test(variables, from, number)
}

fn is_typed(variables: &[Variable], step: Step) -> bool
    requires { All (λ v. IsSize v.size) variables.now }
    ensures { IsTrue result ↔ StepTyped variables.now step }
{
    match step {
        Step::Require {
            variable,
            number,
            ..
        } => is_test(variables, variable, number),
        Step::Assert {
            variable,
            number,
            ..
        } => is_test(variables, variable, number),
        Step::Put { to, number } => is_test(variables, to, number),
        Step::Move { to, from } => is_move(variables, to, from),
        Step::Add {
            to,
            from,
            number,
            ..
        } => is_change(variables, to, from, number),
        Step::Subtract {
            to,
            from,
            number,
            ..
        } => is_change(variables, to, from, number),
    }
}

#[tactic(auto, using(crate::proofs::Each::each))]
fn are_typed(variables: &[Variable], steps: &[Step]) -> bool
    requires { All (λ v. IsSize v.size) variables.now }
    ensures { IsTrue result ↔ All (StepTyped variables.now) steps.now }
{
    let mut rest = steps;
    while let [step, more @ ..] = rest {
        if !is_typed(variables, *step) {
            return false;
        }
        rest = more;
    }
    true
}

#[tactic(auto, unfolding(crate::specs::Reading::FunctionTyped))]
fn function_typed(variables: &[Variable], function: &Function) -> bool
    requires { All (λ v. IsSize v.size) variables.now }
    ensures { IsTrue result ↔ FunctionTyped variables.now function.now }
{
    are_typed(variables, function.steps.as_slice())
}

#[tactic(auto, using(crate::proofs::Each::each))]
fn functions_typed(variables: &[Variable], functions: &[Function]) -> bool
    requires { All (λ v. IsSize v.size) variables.now }
    ensures { IsTrue result ↔ All (FunctionTyped variables.now) functions.now }
{
    let mut rest = functions;
    while let [function, more @ ..] = rest {
        if !function_typed(variables, function) {
            return false;
        }
        rest = more;
    }
    true
}

fn are_few_steps(functions: &[Function]) -> bool
    ensures { IsTrue result ↔ (step_count functions.now ≤ MAX_STATEMENTS) }
{
    let mut room = MAX_STATEMENTS;
    let mut rest = functions;
    while let [function, more @ ..] = rest {
        if room < function.steps.len() {
            return false;
        }
        room -= function.steps.len();
        rest = more;
    }
    true
}

#[tactic(auto, using(crate::proofs::Names::names))]
fn is_same(name: &Name, other: &Name) -> bool
    ensures { IsTrue result ↔ (name.now ≡ other.now) }
{
    name.as_str() == other.as_str()
}

fn is_absent_from_variables(name: &Name, variables: &[Variable]) -> bool
    ensures { IsTrue result ↔ Absent name.now (variable_names variables.now) }
{
    let mut rest = variables;
    while let [variable, more @ ..] = rest {
        if is_same(name, &variable.name) {
            return false;
        }
        rest = more;
    }
    true
}

fn is_absent_from_functions(name: &Name, functions: &[Function]) -> bool
    ensures { IsTrue result ↔ Absent name.now (function_names functions.now) }
{
    let mut rest = functions;
    while let [function, more @ ..] = rest {
        if is_same(name, &function.name) {
            return false;
        }
        rest = more;
    }
    true
}

fn functions_differ(functions: &[Function]) -> bool
    ensures { IsTrue result ↔ Differ (function_names functions.now) }
{
    let mut rest = functions;
    while let [function, more @ ..] = rest {
        if !is_absent_from_functions(&function.name, more) {
            return false;
        }
        rest = more;
    }
    true
}

#[tactic(auto, using(crate::proofs::Names::absences))]
fn is_absent(name: &Name, variables: &[Variable], functions: &[Function]) -> bool
    ensures { IsTrue result ↔ Absent name.now (variable_names variables.now ++ function_names functions.now) }
{
    is_absent_from_variables(name, variables) && is_absent_from_functions(name, functions)
}

fn names_differ(variables: &[Variable], functions: &[Function]) -> bool
    ensures { IsTrue result ↔ Differ (variable_names variables.now ++ function_names functions.now) }
{
    let mut rest = variables;
    while let [variable, more @ ..] = rest {
        if !is_absent(&variable.name, more, functions) {
            return false;
        }
        rest = more;
    }
    functions_differ(functions)
}

/// Whether the language has a contract.
#[tactic(auto, unfolding(crate::specs::Reading::FunctionTyped))]
pub fn is_good(contract: &Contract) -> bool
    ensures { IsTrue result ↔ IsGood contract.now }
{
    let variables = contract.variables.as_slice();
    let functions = contract.functions.as_slice();
    variables.len() <= MAX_VARIABLES
        && functions.len() <= MAX_FUNCTIONS
        && are_few_steps(functions)
        && names_differ(variables, functions)
        && are_sized(variables)
        && functions_typed(variables, functions)
}

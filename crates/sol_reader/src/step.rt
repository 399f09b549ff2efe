// Steps, from statements.

ghost use Rattle.std.specs.Prelude.{◌≡◌, ◌≤◌, length};
ghost use Rattle.chc_nums.specs.declared.limits.TheConstants.{MAX_VARIABLES};
ghost use Rattle.sol_reader.specs.Reading.{place_from, variable_of, number_of, order_of, test_of, changed, change_of, value_of, assignment_of, step_of};

use crate::lines::Lines;
use chc_nums::Name;
use sol_first::{Order, Step, Variable};
use sol_tree::{AssignOp, BinaryOp, ExprTree, Simple, Stmt};

// What a `require` or an `assert` tests.
#[derive(Clone, Copy)]
struct Test {
    variable: u32,
    order: Order,
    number: i128,
}

// The first place of a name among the variables.
fn place_of(name: &Name, variables: &[Variable]) -> Option<u32>
    requires { length variables.now ≤ MAX_VARIABLES }
    ensures { result ≡ place_from 0 name.now variables.now }
{
    let mut place = 0;
    let mut rest = variables;
    while let [variable, more @ ..] = rest {
        if variable.name.as_str() == name.as_str() {
            return Some(place);
        }
        place += 1;
        rest = more;
    }
    None
}

// The variable that an expression names.
#[tactic(auto, unfolding(crate::specs::Reading::variable_of))]
fn variable_of(variables: &[Variable], tree: &ExprTree) -> Option<u32>
    requires { length variables.now ≤ MAX_VARIABLES }
    ensures { result ≡ variable_of variables.now tree.now }
{
    match tree {
        ExprTree::Named { name, .. } => place_of(name, variables),
        _ => None,
    }
}

#[tactic(auto, unfolding(crate::specs::Reading::number_of))]
fn number_of(tree: &ExprTree) -> Option<i128>
    ensures { result ≡ number_of tree.now }
{
    match tree {
        ExprTree::Number {
            value,
            unit: None,
            ..
        } => Some(*value),
        _ => None,
    }
}

fn order_of(operator: BinaryOp) -> Option<Order>
    ensures { result ≡ order_of operator }
{
    match operator {
        BinaryOp::Less => Some(Order::Less),
        BinaryOp::LessEqual => Some(Order::LessEqual),
        BinaryOp::Greater => Some(Order::Greater),
        BinaryOp::GreaterEqual => Some(Order::GreaterEqual),
        _ => None,
    }
}

// A variable, a comparison and a number.
#[tactic(auto, unfolding(crate::specs::Reading::test_of))]
fn test_of(variables: &[Variable], tree: &ExprTree) -> Option<Test>
    requires { length variables.now ≤ MAX_VARIABLES }
    ensures { result ≡ test_of variables.now tree.now }
{
    match tree {
        ExprTree::Binary {
            left,
            operator,
            right,
            ..
        } => {
            let order = order_of(*operator)?;
            let variable = variable_of(variables, left.get())?;
            let number = number_of(right.get())?;
            Some(Test {
                variable,
                order,
                number,
            })
        }
        _ => None,
    }
}

// A sum or a difference that is assigned.
fn changed(
    lines: &Lines<'_>,
    operator: BinaryOp,
    at: u32,
    to: u32,
    from: u32,
    number: i128,
) -> Option<Step>
    ensures { result ≡ changed lines.now operator at to from number }
{
    match operator {
        BinaryOp::Add => Some(Step::Add {
            line: lines.line(at),
            col: lines.column(at),
            to,
            from,
            number,
        }),
        BinaryOp::Subtract => Some(Step::Subtract {
            line: lines.line(at),
            col: lines.column(at),
            to,
            from,
            number,
        }),
        _ => None,
    }
}

#[tactic(auto, unfolding(crate::specs::Reading::change_of))]
fn change_of(lines: &Lines<'_>, variables: &[Variable], to: u32, tree: &ExprTree) -> Option<Step>
    requires { length variables.now ≤ MAX_VARIABLES }
    ensures { result ≡ change_of lines.now variables.now to tree.now }
{
    match tree {
        ExprTree::Binary {
            left,
            operator_at,
            operator,
            right,
            ..
        } => {
            let from = variable_of(variables, left.get())?;
            let number = number_of(right.get())?;
            changed(lines, *operator, *operator_at, to, from, number)
        }
        _ => None,
    }
}

// A number, a variable, a sum or a difference that is assigned.
#[tactic(auto, unfolding(crate::specs::Reading::value_of))]
fn value_of(lines: &Lines<'_>, variables: &[Variable], to: u32, tree: &ExprTree) -> Option<Step>
    requires { length variables.now ≤ MAX_VARIABLES }
    ensures { result ≡ value_of lines.now variables.now to tree.now }
{
    if let Some(number) = number_of(tree) {
        return Some(Step::Put { to, number });
    }
    if let Some(from) = variable_of(variables, tree) {
        return Some(Step::Move { to, from });
    }
    change_of(lines, variables, to, tree)
}

fn assignment_of(lines: &Lines<'_>, variables: &[Variable], simple: &Simple) -> Option<Step>
    requires { length variables.now ≤ MAX_VARIABLES }
    ensures { result ≡ assignment_of lines.now variables.now simple.now }
{
    match simple {
        Simple::Assignment {
            target,
            operator: AssignOp::Assign,
            value,
            ..
        } => {
            let to = variable_of(variables, target)?;
            value_of(lines, variables, to, value)
        }
        _ => None,
    }
}

/// The step of a statement.
#[tactic(auto, unfolding(crate::specs::Reading::step_of))]
pub fn step_of(lines: &Lines<'_>, variables: &[Variable], statement: &Stmt) -> Option<Step>
    requires { length variables.now ≤ MAX_VARIABLES }
    ensures { result ≡ step_of lines.now variables.now statement.now }
{
    match statement {
        Stmt::Require {
            condition,
            text: None,
            ..
        } => {
            let Test {
                variable,
                order,
                number,
            } = test_of(variables, condition)?;
            Some(Step::Require {
                variable,
                order,
                number,
            })
        }
        Stmt::Assert { at, condition } => {
            let Test {
                variable,
                order,
                number,
            } = test_of(variables, condition)?;
            Some(Step::Assert {
                line: lines.line(*at),
                col: lines.column(*at),
                variable,
                order,
                number,
            })
        }
        Stmt::Simple { simple, .. } => assignment_of(lines, variables, simple),
        _ => None,
    }
}

// What operators and choices are.

ghost use Rattle.std.specs.Prelude.{◌≡◌, Some};
ghost use Rattle.sol_judged.specs.Judged.{Judges, Makes, sound};
ghost use Rattle.sol_judged.specs.Found.{Known};
ghost use Rattle.sol_judged.specs.Literals.{truth_value};
ghost use Rattle.sol_judged.specs.Conditions.{as_bool, truth, truth_of, inverted, conjunction, disjunction, choice};
ghost use Rattle.sol_judged.specs.Arithmetic.{site_if, sites_of, exact, operation, computed, arithmetic, power, negative, negated};
ghost use Rattle.sol_judged.specs.Comparisons.{is_order, compared, comparison};
ghost use Rattle.sol_judged.specs.Binary.{binary};

use crate::fault::TypeFault;
use crate::findings::{Found, Pair, Value};
use crate::numbers::{
    exact_power, exact_quotient, exact_remainder, whole_difference, whole_opposite, whole_product,
    whole_sum,
};
use crate::operands::{literal, literals, number_of, pair, side};
use crate::rules::Rule;
use crate::types::{ValueType, is_bool, is_signed, program_type};
use chc_nums::{Op, Ty};
use sol_core::{Cmp, Expr, PanicSites};
use sol_tree::BinaryOp;
use sqlite_items::Boxed;
use std::alloc::Global;

// ---- conditions

fn truth_of(expr: Boxed<Expr>) -> Found
    ensures { truth_of expr ≡ sound (Known result) }
{
    Found::Value(None, ValueType::Elementary(Ty::Bool), expr)
}

/// `true` or `false`.
pub fn truth_value(alloc: Global, z: i128) -> Result<Found, TypeFault>
    ensures { Judges Known (truth_value z) result }
{
    let expr = number_of(alloc, z, Ty::Bool)?;
    Ok(truth_of(expr))
}

fn as_bool(at: u32, v: Value) -> Result<Boxed<Expr>, TypeFault>
    ensures { Judges (λ e. e) (as_bool at (Some v)) result }
{
    if is_bool(v.ty) {
        Ok(v.expr)
    } else {
        Err(TypeFault::Broken {
            rule: Rule::Condition,
            at,
        })
    }
}

/// An operand that has to be `bool`.
#[tactic(auto, using(crate::proofs::Faults::faults), unfolding(crate::specs::Conditions::truth))]
pub fn truth(alloc: Global, at: u32, first: u32, found: Found) -> Result<Boxed<Expr>, TypeFault>
    ensures { Judges (λ e. e) (truth at first (Known found)) result }
{
    if let Found::Literal(_) = found {
        return Err(TypeFault::Broken {
            rule: Rule::Condition,
            at,
        });
    }
    let value = side(alloc, Rule::Condition, at, None, first, found)?;
    as_bool(at, value)
}

/// `!` before an operand.
#[tactic(auto, using(crate::proofs::Faults::faults), unfolding(crate::specs::Conditions::inverted))]
pub fn inverted(alloc: Global, at: u32, first: u32, found: Found) -> Result<Found, TypeFault>
    ensures { Judges Known (inverted at first (Known found)) result }
{
    let e = truth(alloc, at, first, found)?;
    let expr = Boxed::new(alloc, Expr::Not(e))?;
    Ok(truth_of(expr))
}

/// `&&`
#[tactic(auto, using(crate::proofs::Faults::faults), unfolding(crate::specs::Conditions::conjunction))]
fn conjunction(
    alloc: Global,
    at: u32,
    left_first: u32,
    right_first: u32,
    a: Found,
    b: Found,
) -> Result<Found, TypeFault>
    ensures { Judges Known (conjunction at left_first right_first (Known a) (Known b)) result }
{
    let x = truth(alloc, at, left_first, a)?;
    let y = truth(alloc, at, right_first, b)?;
    let expr = Boxed::new(alloc, Expr::Both(x, y))?;
    Ok(truth_of(expr))
}

/// `||`
#[tactic(auto, using(crate::proofs::Faults::faults), unfolding(crate::specs::Conditions::disjunction))]
fn disjunction(
    alloc: Global,
    at: u32,
    left_first: u32,
    right_first: u32,
    a: Found,
    b: Found,
) -> Result<Found, TypeFault>
    ensures { Judges Known (disjunction at left_first right_first (Known a) (Known b)) result }
{
    let x = truth(alloc, at, left_first, a)?;
    let y = truth(alloc, at, right_first, b)?;
    let expr = Boxed::new(alloc, Expr::Either(x, y))?;
    Ok(truth_of(expr))
}

/// `c ? a : b`
#[tactic(auto, using(crate::proofs::Faults::faults), unfolding(crate::specs::Conditions::choice))]
pub fn choice(
    alloc: Global,
    question: u32,
    condition_first: u32,
    chosen_first: u32,
    other_first: u32,
    c: Found,
    a: Found,
    b: Found,
) -> Result<Found, TypeFault>
    ensures { Judges Known (choice question condition_first chosen_first other_first (Known c) (Known a) (Known b)) result }
{
    let x = truth(alloc, condition_first, condition_first, c)?;
    let p = pair(
        alloc,
        Rule::Operands,
        question,
        false,
        chosen_first,
        other_first,
        a,
        b,
    )?;
    let expr = Boxed::new(alloc, Expr::Pick(x, p.left, p.right))?;
    Ok(Found::Value(None, p.ty, expr))
}

// ---- arithmetic

fn site_if(wanted: bool, at: u32) -> Option<u32>
    ensures { result ≡ site_if wanted at }
{
    if wanted { Some(at) } else { None }
}

// Where an operation panics.
pub fn sites_of(op: Op, signed: bool, checked: bool, at: u32) -> PanicSites
    ensures { result ≡ sites_of op signed checked at }
{
    match op {
        Op::Add => PanicSites {
            under: site_if(checked && signed, at),
            over: site_if(checked, at),
            zero: None,
        },
        Op::Sub => PanicSites {
            under: site_if(checked, at),
            over: site_if(checked && signed, at),
            zero: None,
        },
        Op::Mul => PanicSites {
            under: site_if(checked && signed, at),
            over: site_if(checked, at),
            zero: None,
        },
        Op::Div => PanicSites {
            under: None,
            over: site_if(checked && signed, at),
            zero: Some(at),
        },
        Op::Rem => PanicSites {
            under: None,
            over: None,
            zero: Some(at),
        },
        Op::Neg => PanicSites {
            under: None,
            over: site_if(checked, at),
            zero: None,
        },
    }
}

// The exact result of two numbers of literals.
fn exact(op: Op, a: i128, b: i128) -> Option<i128>
    ensures { result ≡ exact op a b }
{
    match op {
        Op::Add => whole_sum(a, b),
        Op::Sub => whole_difference(a, b),
        Op::Mul => whole_product(a, b),
        Op::Div => exact_quotient(a, b),
        Op::Rem => exact_remainder(a, b),
        Op::Neg => whole_opposite(a),
    }
}

fn operation(
    alloc: Global,
    op: Op,
    checked: bool,
    at: u32,
    ty: ValueType,
    a: Boxed<Expr>,
    b: Boxed<Expr>,
) -> Result<Boxed<Expr>, TypeFault>
    ensures { Makes (operation op checked at ty a b) result }
{
    let sites = sites_of(op, is_signed(ty), checked, at);
    Ok(Boxed::new(
        alloc,
        Expr::Arith(op, program_type(ty), checked, a, b, sites),
    )?)
}

fn computed(alloc: Global, op: Op, checked: bool, at: u32, p: Pair) -> Result<Found, TypeFault>
    ensures { Judges Known (computed op checked at (Some p)) result }
{
    let expr = operation(alloc, op, checked, at, p.ty, p.left, p.right)?;
    Ok(Found::Value(None, p.ty, expr))
}

/// `+ - * / %`
#[tactic(auto, using(crate::proofs::Faults::faults), unfolding(crate::specs::Arithmetic::arithmetic))]
fn arithmetic(
    alloc: Global,
    op: Op,
    checked: bool,
    first: u32,
    at: u32,
    left_first: u32,
    right_first: u32,
    a: Found,
    b: Found,
) -> Result<Found, TypeFault>
    ensures { Judges Known (arithmetic op checked first at left_first right_first (Known a) (Known b)) result }
{
    match literals(&a, &b) {
        Some((x, y)) => literal(first, exact(op, x, y)),
        None => {
            let p = pair(
                alloc,
                Rule::Operands,
                at,
                true,
                left_first,
                right_first,
                a,
                b,
            )?;
            computed(alloc, op, checked, at, p)
        }
    }
}

/// `**`
#[tactic(auto, unfolding(crate::specs::Arithmetic::power))]
fn power(first: u32, at: u32, a: &Found, b: &Found) -> Result<Found, TypeFault>
    ensures { Judges Known (power first at (Known a.now) (Known b.now)) result }
{
    match literals(a, b) {
        Some((x, y)) => literal(first, exact_power(x, y)),
        None => Err(TypeFault::Broken {
            rule: Rule::Operands,
            at,
        }),
    }
}

fn negative(alloc: Global, checked: bool, at: u32, v: Value) -> Result<Found, TypeFault>
    ensures { Judges Known (negative checked at (Some v)) result }
{
    if is_signed(v.ty) {
        let zero = number_of(alloc, 0, program_type(v.ty))?;
        let expr = operation(alloc, Op::Neg, checked, at, v.ty, v.expr, zero)?;
        Ok(Found::Value(None, v.ty, expr))
    } else {
        Err(TypeFault::Broken {
            rule: Rule::Negation,
            at,
        })
    }
}

/// `-` before an operand.
#[tactic(auto, using(crate::proofs::Faults::faults), unfolding(crate::specs::Arithmetic::negated))]
pub fn negated(
    alloc: Global,
    checked: bool,
    at: u32,
    first: u32,
    found: Found,
) -> Result<Found, TypeFault>
    ensures { Judges Known (negated checked at first (Known found)) result }
{
    if let Found::Literal(z) = found {
        return literal(at, whole_opposite(z));
    }
    let value = side(alloc, Rule::Negation, at, None, first, found)?;
    negative(alloc, checked, at, value)
}

// ---- comparisons

fn is_order(cmp: Cmp) -> bool
    ensures { result ≡ is_order cmp }
{
    match cmp {
        Cmp::Lt | Cmp::Le | Cmp::Gt | Cmp::Ge => true,
        Cmp::Eq | Cmp::Ne => false,
    }
}

fn compared(alloc: Global, cmp: Cmp, p: Pair) -> Result<Found, TypeFault>
    ensures { Judges Known (compared cmp (Some p)) result }
{
    let expr = Boxed::new(alloc, Expr::Compare(cmp, p.left, p.right))?;
    Ok(truth_of(expr))
}

#[tactic(auto, using(crate::proofs::Faults::faults), unfolding(crate::specs::Comparisons::comparison))]
fn comparison(
    alloc: Global,
    cmp: Cmp,
    at: u32,
    left_first: u32,
    right_first: u32,
    a: Found,
    b: Found,
) -> Result<Found, TypeFault>
    ensures { Judges Known (comparison cmp at left_first right_first (Known a) (Known b)) result }
{
    let p = pair(
        alloc,
        Rule::Comparison,
        at,
        is_order(cmp),
        left_first,
        right_first,
        a,
        b,
    )?;
    compared(alloc, cmp, p)
}

// ---- all

/// An operator between two operands.
pub fn binary(
    alloc: Global,
    operator: BinaryOp,
    checked: bool,
    first: u32,
    at: u32,
    left_first: u32,
    right_first: u32,
    a: Found,
    b: Found,
) -> Result<Found, TypeFault>
    ensures { Judges Known (binary operator checked first at left_first right_first (Known a) (Known b)) result }
{
    match operator {
        BinaryOp::Power => power(first, at, &a, &b),
        BinaryOp::Multiply => {
            arithmetic(
                alloc,
                Op::Mul,
                checked,
                first,
                at,
                left_first,
                right_first,
                a,
                b,
            )
        }
        BinaryOp::Divide => {
            arithmetic(
                alloc,
                Op::Div,
                checked,
                first,
                at,
                left_first,
                right_first,
                a,
                b,
            )
        }
        BinaryOp::Remainder => {
            arithmetic(
                alloc,
                Op::Rem,
                checked,
                first,
                at,
                left_first,
                right_first,
                a,
                b,
            )
        }
        BinaryOp::Add => {
            arithmetic(
                alloc,
                Op::Add,
                checked,
                first,
                at,
                left_first,
                right_first,
                a,
                b,
            )
        }
        BinaryOp::Subtract => {
            arithmetic(
                alloc,
                Op::Sub,
                checked,
                first,
                at,
                left_first,
                right_first,
                a,
                b,
            )
        }
        BinaryOp::Less => comparison(alloc, Cmp::Lt, at, left_first, right_first, a, b),
        BinaryOp::Greater => comparison(alloc, Cmp::Gt, at, left_first, right_first, a, b),
        BinaryOp::LessEqual => comparison(alloc, Cmp::Le, at, left_first, right_first, a, b),
        BinaryOp::GreaterEqual => comparison(alloc, Cmp::Ge, at, left_first, right_first, a, b),
        BinaryOp::Equal => comparison(alloc, Cmp::Eq, at, left_first, right_first, a, b),
        BinaryOp::NotEqual => comparison(alloc, Cmp::Ne, at, left_first, right_first, a, b),
        BinaryOp::And => conjunction(alloc, at, left_first, right_first, a, b),
        BinaryOp::Or => disjunction(alloc, at, left_first, right_first, a, b),
    }
}

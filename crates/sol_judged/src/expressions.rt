// What an expression is: a function for each kind of expression, so that deep trees take little stack.

ghost use Rattle.std.specs.Prelude.{◌≡◌, Some, List, [], map, slice_get};
ghost use Rattle.sol_tree.specs.Places.{place_of};
ghost use Rattle.sol_judged.specs.Settings.{setting};
ghost use Rattle.sol_judged.specs.declared.fault.TypeFault.TheVariants as fault;
ghost use Rattle.sol_judged.specs.declared.rules.Rule.TheVariants as rule;
ghost use Rattle.sol_judged.specs.Judged.{Judges, IsFault};
ghost use Rattle.sol_judged.specs.Found.{Known};
ghost use Rattle.sol_judged.specs.Names.{meaning_of};
ghost use Rattle.sol_judged.specs.Naming.{named_at};
ghost use Rattle.sol_judged.specs.Calls.{argument_of, arguments_onto, callable, inner_call, outer_call, writing, push_call, pop_call, interface_from_argument, interface_call, thing_call, value_call, called};
ghost use Rattle.sol_judged.specs.Judgement.{judge, placed, of_conversion, of_index, of_member, of_call, of_not, of_negation, of_binary, of_choice};

use crate::conversions::{converted, interface_of};
use crate::fault::TypeFault;
use crate::findings::{Call, Found, Thing};
use crate::indices::indexed;
use crate::members::{member_of, message_member, named_at, super_member, type_member};
use crate::names::meaning_of;
use crate::numbers::written;
use crate::operands::{literal, number_of, wanted};
use crate::operators::{binary, choice, inverted, negated, truth_value};
use crate::rules::Rule;
use crate::tables::{Function, OuterFunction, Surroundings};
use crate::types::{ValueType, program_type};
use chc_nums::{Name, Ty};
use sol_core::Expr;
use sol_tree::{BinaryOp, ExprTree, Identifier};
use sqlite_items::{Boxed, Items};
use std::alloc::Global;

/// What an expression is where it stands: Ok exactly where it has no fault, and else one of its faults.
#[cycle(judge)]
#[tactic(auto, using(crate::proofs::Faults::faults, crate::proofs::Judging::judging, crate::proofs::Heights::sizing), unfolding(crate::specs::Judgement::of_parenthesised))]
pub fn judge(alloc: Global, w: &Surroundings<'_>, e: &ExprTree) -> Result<Found, TypeFault>
    ensures { Judges Known (judge (setting w.now) e.now) result }
{
    match e {
        ExprTree::Number {
            at,
            value,
            hex,
            unit,
        } => literal(*at, written(*value, *hex, *unit)),
        ExprTree::True { .. } => truth_value(alloc, 1),
        ExprTree::False { .. } => truth_value(alloc, 0),
        ExprTree::Named { at, name } => judge_name(alloc, w, *at, name),
        ExprTree::Parenthesised { inner, .. } => judge(alloc, w, inner.get()),
        ExprTree::Conversion {
            ty,
            open_at,
            value,
            ..
        } => conversion(alloc, w, value.get(), *ty, *open_at),
        ExprTree::TypeMember { ty, member, .. } => type_member(alloc, w, ty, member),
        ExprTree::MessageMember { member, .. } => message_member(alloc, member),
        ExprTree::SuperMember { member, .. } => super_member(w, member),
        ExprTree::Index {
            base,
            open_at,
            index,
            ..
        } => index_of(alloc, w, base.get(), *open_at, index.get()),
        ExprTree::Member { base, member, .. } => base_member(alloc, w, base.get(), member),
        ExprTree::Call {
            callee,
            open_at,
            arguments,
            ..
        } => call_of(alloc, w, callee.get(), *open_at, arguments.as_slice()),
        ExprTree::Not { at, operand } => not(alloc, w, operand.get(), *at),
        ExprTree::Negation { at, operand } => negation(alloc, w, operand.get(), *at),
        ExprTree::Binary {
            at,
            left,
            operator_at,
            operator,
            right,
        } => operation(
            alloc,
            w,
            left.get(),
            *at,
            *operator,
            *operator_at,
            right.get(),
        ),
        ExprTree::Choice {
            condition,
            question_at,
            chosen,
            otherwise,
            ..
        } => choice_of(
            alloc,
            w,
            condition.get(),
            *question_at,
            chosen.get(),
            otherwise.get(),
        ),
    }
}

fn judge_name(alloc: Global, w: &Surroundings<'_>, at: u32, name: &Name) -> Result<Found, TypeFault>
    ensures { Judges Known (named_at (setting w.now) at (meaning_of (setting w.now) name.now)) result }
{
    let meaning = meaning_of(w, name.as_str());
    named_at(alloc, w, at, meaning)
}

#[cycle(judge)]
#[tactic(auto, using(crate::proofs::Faults::faults, crate::proofs::Heights::sizing), unfolding(crate::specs::Judgement::of_conversion))]
fn conversion(
    alloc: Global,
    w: &Surroundings<'_>,
    value: &ExprTree,
    ty: Ty,
    opened: u32,
) -> Result<Found, TypeFault>
    ensures { Judges Known (of_conversion opened ty (place_of value.now) (judge (setting w.now) value.now)) result }
{
    let v = judge(alloc, w, value)?;
    converted(alloc, opened, ty, value.at(), v)
}

#[cycle(judge)]
#[tactic(auto, using(crate::proofs::Faults::faults, crate::proofs::Heights::sizing), unfolding(crate::specs::Judgement::of_index))]
fn index_of(
    alloc: Global,
    w: &Surroundings<'_>,
    base: &ExprTree,
    opened: u32,
    index: &ExprTree,
) -> Result<Found, TypeFault>
    ensures { Judges Known (of_index (setting w.now) opened (judge (setting w.now) base.now) (place_of index.now) (judge (setting w.now) index.now)) result }
{
    let b = judge(alloc, w, base)?;
    let i = judge(alloc, w, index)?;
    indexed(alloc, w, opened, b, index.at(), i)
}

#[cycle(judge)]
#[tactic(auto, using(crate::proofs::Faults::faults, crate::proofs::Heights::sizing), unfolding(crate::specs::Judgement::of_member))]
fn base_member(
    alloc: Global,
    w: &Surroundings<'_>,
    base: &ExprTree,
    member: &Identifier,
) -> Result<Found, TypeFault>
    ensures { Judges Known (of_member (setting w.now) (place_of base.now) (judge (setting w.now) base.now) member.now) result }
{
    let b = judge(alloc, w, base)?;
    member_of(alloc, w, base.at(), b, member)
}

#[cycle(judge)]
#[tactic(auto, using(crate::proofs::Faults::faults, crate::proofs::Heights::sizing), unfolding(crate::specs::Judgement::of_call))]
fn call_of(
    alloc: Global,
    w: &Surroundings<'_>,
    callee: &ExprTree,
    opened: u32,
    arguments: &[ExprTree],
) -> Result<Found, TypeFault>
    ensures { Judges Known (of_call (setting w.now) opened (judge (setting w.now) callee.now) (map (placed (setting w.now)) arguments.now)) result }
{
    let f = judge(alloc, w, callee)?;
    call(alloc, w, arguments, opened, f)
}

#[cycle(judge)]
#[tactic(auto, using(crate::proofs::Faults::faults, crate::proofs::Heights::sizing), unfolding(crate::specs::Judgement::of_not))]
fn not(alloc: Global, w: &Surroundings<'_>, operand: &ExprTree, at: u32) -> Result<Found, TypeFault>
    ensures { Judges Known (of_not at (place_of operand.now) (judge (setting w.now) operand.now)) result }
{
    let v = judge(alloc, w, operand)?;
    inverted(alloc, at, operand.at(), v)
}

#[cycle(judge)]
#[tactic(auto, using(crate::proofs::Faults::faults, crate::proofs::Heights::sizing), unfolding(crate::specs::Judgement::of_negation))]
fn negation(
    alloc: Global,
    w: &Surroundings<'_>,
    operand: &ExprTree,
    at: u32,
) -> Result<Found, TypeFault>
    ensures { Judges Known (of_negation (setting w.now) at (place_of operand.now) (judge (setting w.now) operand.now)) result }
{
    let v = judge(alloc, w, operand)?;
    negated(alloc, w.is_checked, at, operand.at(), v)
}

#[cycle(judge)]
#[tactic(auto, using(crate::proofs::Faults::faults, crate::proofs::Heights::sizing), unfolding(crate::specs::Judgement::of_binary))]
fn operation(
    alloc: Global,
    w: &Surroundings<'_>,
    left: &ExprTree,
    at: u32,
    operator: BinaryOp,
    operator_at: u32,
    right: &ExprTree,
) -> Result<Found, TypeFault>
    ensures { Judges Known (of_binary (setting w.now) operator at operator_at (place_of left.now) (judge (setting w.now) left.now) (place_of right.now) (judge (setting w.now) right.now)) result }
{
    let a = judge(alloc, w, left)?;
    let b = judge(alloc, w, right)?;
    binary(
        alloc,
        operator,
        w.is_checked,
        at,
        operator_at,
        left.at(),
        right.at(),
        a,
        b,
    )
}

#[cycle(judge)]
#[tactic(auto, using(crate::proofs::Faults::faults, crate::proofs::Heights::sizing), unfolding(crate::specs::Judgement::of_choice))]
fn choice_of(
    alloc: Global,
    w: &Surroundings<'_>,
    condition: &ExprTree,
    question: u32,
    chosen: &ExprTree,
    otherwise: &ExprTree,
) -> Result<Found, TypeFault>
    ensures { Judges Known (of_choice question (place_of condition.now) (judge (setting w.now) condition.now) (place_of chosen.now) (judge (setting w.now) chosen.now) (place_of otherwise.now) (judge (setting w.now) otherwise.now)) result }
{
    let c = judge(alloc, w, condition)?;
    let a = judge(alloc, w, chosen)?;
    let b = judge(alloc, w, otherwise)?;
    choice(
        alloc,
        question,
        condition.at(),
        chosen.at(),
        otherwise.at(),
        c,
        a,
        b,
    )
}

// ---- calls

fn misnamed(at: u32) -> TypeFault
    ensures { result ≡ fault.Broken rule.Naming at }
{
    TypeFault::Broken {
        rule: Rule::Naming,
        at,
    }
}

fn miscounted(opened: u32) -> TypeFault
    ensures { result ≡ fault.Broken rule.Arguments opened }
{
    TypeFault::Broken {
        rule: Rule::Arguments,
        at: opened,
    }
}

// A value is no function.
fn value_called(opened: u32, name: Option<u32>) -> TypeFault
    ensures { IsFault (value_call opened name []).faults result }
{
    match name {
        Some(at) => misnamed(at),
        None => miscounted(opened),
    }
}

#[cycle(judge)]
#[tactic(auto, using(crate::proofs::Faults::faults, crate::proofs::Heights::sizing), unfolding(crate::specs::Calls::called))]
fn call(
    alloc: Global,
    w: &Surroundings<'_>,
    arguments: &[ExprTree],
    opened: u32,
    callee: Found,
) -> Result<Found, TypeFault>
    ensures { Judges Known (called (setting w.now) opened (Known callee) (map (placed (setting w.now)) arguments.now)) result }
{
    match callee {
        Found::Thing(at, thing) => call_thing(alloc, w, arguments, opened, at, thing),
        Found::Outer(at, number, target) => {
            call_outer(alloc, w, arguments, opened, at, number, target)
        }
        Found::Value(name, _, _) => Err(value_called(opened, name)),
        Found::Place(name, _, _) => Err(value_called(opened, name)),
        Found::Mapping(name, _, _) => Err(value_called(opened, name)),
        Found::Array(at, _, _) => Err(misnamed(at)),
        Found::Literal(_) => Err(miscounted(opened)),
        Found::Call(_, _) => Err(miscounted(opened)),
    }
}

#[cycle(judge)]
#[tactic(auto, using(crate::proofs::Faults::faults, crate::proofs::Heights::sizing))]
fn call_thing(
    alloc: Global,
    w: &Surroundings<'_>,
    arguments: &[ExprTree],
    opened: u32,
    at: u32,
    thing: Thing,
) -> Result<Found, TypeFault>
    ensures { Judges Known (thing_call (setting w.now) opened at thing (map (placed (setting w.now)) arguments.now)) result }
{
    match thing {
        Thing::Function {
            function,
            is_member,
        } => match w.declared.functions.get(function as usize) {
            None => Err(misnamed(at)),
            Some(f) => call_inner(alloc, w, arguments, opened, at, is_member, f),
        },
        Thing::Push { array, element } => {
            call_push(alloc, w, arguments, opened, at, array, element)
        }
        Thing::Pop { array } => match arguments {
            [] => popped(alloc, opened, at, array),
            _ => Err(miscounted(opened)),
        },
        Thing::Interface { unit } => call_interface(alloc, w, arguments, opened, unit),
        Thing::Contract { .. } => Err(misnamed(at)),
        Thing::Other => Err(misnamed(at)),
    }
}

// The number of a function in the program, where it may be called so.
fn callable(at: u32, is_member: bool, f: &Function) -> Result<u32, TypeFault>
    ensures { Judges (λ n. n) (callable at is_member f.now f.now.number) result }
{
    match f.number {
        None => Err(TypeFault::Broken {
            rule: Rule::CalledFunction,
            at,
        }),
        Some(number) => if is_member {
            Ok(number)
        } else if f.is_external {
            Err(TypeFault::Broken {
                rule: Rule::CalledFunction,
                at,
            })
        } else {
            Ok(number)
        },
    }
}

#[cycle(judge)]
#[tactic(auto, using(crate::proofs::Faults::faults, crate::proofs::Heights::sizing))]
fn call_inner(
    alloc: Global,
    w: &Surroundings<'_>,
    arguments: &[ExprTree],
    opened: u32,
    at: u32,
    is_member: bool,
    f: &Function,
) -> Result<Found, TypeFault>
    ensures { Judges Known (inner_call opened at is_member (Some f.now) (map (placed (setting w.now)) arguments.now)) result }
{
    let number = callable(at, is_member, f)?;
    let values = judge_all(
        alloc,
        w,
        arguments,
        Rule::Arguments,
        opened,
        f.params.as_slice(),
    )?;
    let call = Call::Inner {
        number,
        arguments: values,
        ret: f.ret,
        is_view: f.is_view,
    };
    Ok(Found::Call(opened, Boxed::new(alloc, call)?))
}

// A function of an interface may be called.
fn writing(at: u32, is_view: bool) -> Result<bool, TypeFault>
    ensures { Judges (λ b. b) (writing at is_view) result }
{
    if is_view {
        Err(TypeFault::Broken {
            rule: Rule::ViewCall,
            at,
        })
    } else {
        Ok(false)
    }
}

#[cycle(judge)]
#[tactic(auto, using(crate::proofs::Faults::faults, crate::proofs::Heights::sizing))]
fn call_outer(
    alloc: Global,
    w: &Surroundings<'_>,
    arguments: &[ExprTree],
    opened: u32,
    at: u32,
    number: u32,
    target: Boxed<Expr>,
) -> Result<Found, TypeFault>
    ensures { Judges Known (outer_call opened at number target (slice_get (setting w.now).declared.outer_functions number) (map (placed (setting w.now)) arguments.now)) result }
{
    match w.declared.outer_functions.get(number as usize) {
        None => Err(misnamed(at)),
        Some(f) => call_declared(alloc, w, arguments, opened, at, number, target, f),
    }
}

#[cycle(judge)]
#[tactic(auto, using(crate::proofs::Faults::faults, crate::proofs::Heights::sizing))]
fn call_declared(
    alloc: Global,
    w: &Surroundings<'_>,
    arguments: &[ExprTree],
    opened: u32,
    at: u32,
    number: u32,
    target: Boxed<Expr>,
    f: &OuterFunction,
) -> Result<Found, TypeFault>
    ensures { Judges Known (outer_call opened at number target (Some f.now) (map (placed (setting w.now)) arguments.now)) result }
{
    let _is_writing = writing(at, f.is_view)?;
    let values = judge_all(
        alloc,
        w,
        arguments,
        Rule::Arguments,
        opened,
        f.params.as_slice(),
    )?;
    let call = Call::Outer {
        number,
        target,
        arguments: values,
        ret: f.ret,
    };
    Ok(Found::Call(opened, Boxed::new(alloc, call)?))
}

#[cycle(judge)]
#[tactic(auto, using(crate::proofs::Faults::faults, crate::proofs::Heights::sizing))]
fn call_push(
    alloc: Global,
    w: &Surroundings<'_>,
    arguments: &[ExprTree],
    opened: u32,
    at: u32,
    array: u32,
    element: ValueType,
) -> Result<Found, TypeFault>
    ensures { Judges Known (push_call opened at array element (map (placed (setting w.now)) arguments.now)) result }
{
    match arguments {
        [] => {
            let value = number_of(alloc, 0, program_type(element))?;
            let call = Call::Push { array, value };
            Ok(Found::Call(opened, Boxed::new(alloc, call)?))
        }
        [argument] => {
            let value = judge_one(alloc, w, argument, Rule::AssignedValue, at, element)?;
            let call = Call::Push { array, value };
            Ok(Found::Call(opened, Boxed::new(alloc, call)?))
        }
        _ => Err(miscounted(opened)),
    }
}

#[tactic(auto, using(crate::proofs::Faults::faults))]
fn popped(alloc: Global, opened: u32, at: u32, array: u32) -> Result<Found, TypeFault>
    ensures { Judges Known (pop_call opened at array []) result }
{
    let call = Call::Pop { array, at };
    Ok(Found::Call(opened, Boxed::new(alloc, call)?))
}

#[cycle(judge)]
#[tactic(auto, using(crate::proofs::Faults::faults, crate::proofs::Heights::sizing))]
fn call_interface(
    alloc: Global,
    w: &Surroundings<'_>,
    arguments: &[ExprTree],
    opened: u32,
    interface: u32,
) -> Result<Found, TypeFault>
    ensures { Judges Known (interface_call opened interface (map (placed (setting w.now)) arguments.now)) result }
{
    match arguments {
        [argument] => judge_as_interface(alloc, w, argument, opened, interface),
        _ => Err(miscounted(opened)),
    }
}

// An argument as a value of an interface.
#[cycle(judge)]
#[tactic(auto, using(crate::proofs::Faults::faults, crate::proofs::Heights::sizing))]
fn judge_as_interface(
    alloc: Global,
    w: &Surroundings<'_>,
    argument: &ExprTree,
    opened: u32,
    interface: u32,
) -> Result<Found, TypeFault>
    ensures { Judges Known (interface_from_argument opened interface (placed (setting w.now) argument.now)) result }
{
    let found = judge(alloc, w, argument)?;
    interface_of(alloc, opened, interface, argument.at(), found)
}

// An argument for a parameter of a type.
#[cycle(judge)]
#[tactic(auto, using(crate::proofs::Faults::faults, crate::proofs::Heights::sizing))]
fn judge_one(
    alloc: Global,
    w: &Surroundings<'_>,
    argument: &ExprTree,
    rule: Rule,
    at: u32,
    ty: ValueType,
) -> Result<Boxed<Expr>, TypeFault>
    ensures { Judges (λ e. e) (argument_of rule at ty (placed (setting w.now) argument.now)) result }
{
    let found = judge(alloc, w, argument)?;
    wanted(alloc, rule, at, ty, argument.at(), found)
}

/// Arguments for parameters of these types; a rule is broken at a place where they are fewer or more, or don't convert.
#[cycle(judge)]
#[tactic(auto, using(crate::proofs::Faults::faults, crate::proofs::Heights::sizing))]
pub fn judge_all(
    alloc: Global,
    w: &Surroundings<'_>,
    arguments: &[ExprTree],
    rule: Rule,
    at: u32,
    params: &[ValueType],
) -> Result<Items<Expr>, TypeFault>
    ensures { Judges (λ es. es) (arguments_onto rule at [] params.now (map (placed (setting w.now)) arguments.now)) result }
{
    let mut made = Items::new(alloc);
    let mut rest = params;
    for argument in arguments {
        match rest {
            [] => {
                return Err(TypeFault::Broken { rule, at });
            }
            [ty, more @ ..] => {
                let e = judge_one(alloc, w, argument, rule, at, *ty)?;
                made.push(e.into_inner())?;
                rest = more;
            }
        }
    }
    if rest.is_empty() {
        Ok(made)
    } else {
        Err(TypeFault::Broken { rule, at })
    }
}

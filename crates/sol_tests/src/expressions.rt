// Expressions at the head of texts.

use crate::texts::tokens_of;
use chc_nums::NoMemory;
use sol_parse_expr::{ParseFault, parse_expr};
use sol_tree::ExprTree;
use std::alloc::Global;

// The tree with each node in brackets, and a binary operator as the level of its precedence.
fn show(tree: &ExprTree, out: &mut String) -> Result<(), NoMemory> {
    match tree {
        ExprTree::Named { name, .. } => out.push_str(name.as_str())?,
        ExprTree::Negation { operand, .. } => {
            out.push_str("{-")?;
            show(operand.get(), out)?;
            out.push_str("}")?;
        }
        ExprTree::Binary {
            left,
            operator,
            right,
            ..
        } => {
            out.push_str("{")?;
            show(left.get(), out)?;
            out.push_str(match operator.precedence() {
                3 => " 3 ",
                4 => " 4 ",
                5 => " 5 ",
                6 => " 6 ",
                7 => " 7 ",
                8 => " 8 ",
                _ => " 9 ",
            })?;
            show(right.get(), out)?;
            out.push_str("}")?;
        }
        ExprTree::Choice {
            condition,
            chosen,
            otherwise,
            ..
        } => {
            out.push_str("{")?;
            show(condition.get(), out)?;
            out.push_str(" ? ")?;
            show(chosen.get(), out)?;
            out.push_str(" : ")?;
            show(otherwise.get(), out)?;
            out.push_str("}")?;
        }
        _ => out.push_str("other")?,
    }
    Ok(())
}

fn shown(alloc: Global, tree: &ExprTree) -> Result<String, NoMemory> {
    let mut out = String::new(alloc);
    show(tree, &mut out)?;
    Ok(out)
}

// The expression at the head of a text, from this level on, and behind it how many tokens it takes.
fn shown_at(alloc: Global, text: &str, level: u32) -> Result<(String, u32), NoMemory> {
    let tokens = tokens_of(alloc, text)?;
    if level < 1 || level > 128 {
        return Ok((String::new(alloc), 0));
    }
    let (shown, to) = match parse_expr(alloc, tokens.as_slice(), 0, level) {
        Ok((tree, to)) => (shown(alloc, &tree), to),
        Err(ParseFault::NoMemory) => (Err(NoMemory), 0),
        Err(ParseFault::NoTree { .. }) => (Ok(String::new(alloc)), 0),
    };
    Ok((shown?, to))
}

#[test]
fn expressions_are_read(rt: HostRuntime) -> Result<(), NoMemory> {
    for (text, level, want, used) in [
        ("a + b", 128, "a", 1),
        ("a + b + c", 127, "{a 5 b}", 3),
        ("a + b + c", 1, "{{a 5 b} 5 c}", 5),
        ("a + b * c", 1, "{a 5 {b 4 c}}", 5),
        ("a ** b ** c", 1, "{a 3 {b 3 c}}", 5),
        ("- a ** - b", 1, "{{-a} 3 {-b}}", 5),
        ("a < b == c >= d", 1, "{{a 6 b} 7 {c 6 d}}", 7),
        ("a || b && c", 1, "{a 9 {b 8 c}}", 5),
        ("a ? b : c ? d : e", 1, "{a ? b : {c ? d : e}}", 9),
        ("a ? b", 1, "a", 1),
    ] {
        let (shown, end) = shown_at(rt.alloc(), text, level)?;
        assert_eq!(rt; shown.as_str(), want);
        assert_eq!(rt; end, used);
    }
    Ok(())
}

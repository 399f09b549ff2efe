// Nodes of expressions from their parts.

ghost use Rattle.std.specs.Prelude.{◌≡◌, IfOk};
ghost use Rattle.sol_parse_expr.specs.Reading.{chosen, joined, suffixed};

use chc_nums::NoMemory;
use sol_tree::{BinaryOp, ExprTree, Identifier};
use sqlite_items::{Boxed, Items};
use std::alloc::Global;

// An operator, and the operand after it.
#[derive(Drop)]
pub struct Operand {
    pub at: u32,
    pub operator: BinaryOp,
    pub right: Boxed<ExprTree>,
}

// `? expr : expr`, at the `?`.
#[derive(Drop)]
pub struct Branches {
    pub at: u32,
    pub chosen: Boxed<ExprTree>,
    pub otherwise: Boxed<ExprTree>,
}

// `[ expr ]`, `. ID` or `( [args] )`.
#[derive(Drop)]
pub enum Suffix {
    Index { at: u32, index: Boxed<ExprTree> },
    Member { member: Identifier },
    Call { at: u32, arguments: Items<ExprTree> },
}

pub fn suffixed(alloc: Global, base: ExprTree, suffix: Suffix) -> Result<ExprTree, NoMemory>
    ensures { IfOk result (λ e. e ≡ suffixed base suffix) }
{
    let at = base.at();
    let base = Boxed::new(alloc, base)?;
    match suffix {
        Suffix::Index { at: open_at, index } => Ok(ExprTree::Index {
            at,
            base,
            open_at,
            index,
        }),
        Suffix::Member { member } => Ok(ExprTree::Member { at, base, member }),
        Suffix::Call {
            at: open_at,
            arguments,
        } => Ok(ExprTree::Call {
            at,
            callee: base,
            open_at,
            arguments,
        }),
    }
}

pub fn joined(alloc: Global, left: ExprTree, operand: Operand) -> Result<ExprTree, NoMemory>
    ensures { IfOk result (λ e. e ≡ joined left operand) }
{
    let at = left.at();
    Ok(ExprTree::Binary {
        at,
        left: Boxed::new(alloc, left)?,
        operator_at: operand.at,
        operator: operand.operator,
        right: operand.right,
    })
}

pub fn chosen(alloc: Global, condition: ExprTree, branches: Branches) -> Result<ExprTree, NoMemory>
    ensures { IfOk result (λ e. e ≡ chosen condition branches) }
{
    let at = condition.at();
    Ok(ExprTree::Choice {
        at,
        condition: Boxed::new(alloc, condition)?,
        question_at: branches.at,
        chosen: branches.chosen,
        otherwise: branches.otherwise,
    })
}

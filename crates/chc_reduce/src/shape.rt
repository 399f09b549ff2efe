// The rows of formulas.

ghost use Rattle.std.specs.Prelude.{◌≡◌, ◌++◌, ◌∷◌, ◌&&◌, [], true, false, map, IfOk, OnOk};
ghost use Rattle.std.specs.List.{list_all};
ghost use Rattle.chc_form.specs.Linear.{lins};
ghost use Rattle.chc_reduce.specs.Rows.{rows_of, is_plain, branch_of, joined, only};

use chc_form::{Formula, Lin, Row};
use chc_nums::{List, NoMemory};
use std::alloc::Global;

/// The rows of a formula, read in one pass: the inequalities outside every choice, in order; the alternative that is
/// taken, number 0, at each `Or` of one alternative; and whether there is no choice.
#[derive(Drop)]
pub struct FormulaRows {
    pub rows: List<Row>,
    pub branch: List<u32>,
    pub plain: bool,
}

/// The rows of a formula.
pub fn formula_rows(alloc: Global, f: &Formula) -> Result<FormulaRows, NoMemory>
    ensures rows { IfOk result (λ made. lins made.rows ≡ rows_of f.now) }
    ensures branch { IfOk result (λ made. made.branch ≡ branch_of f.now) }
    ensures plain { IfOk result (λ made. made.plain ≡ is_plain f.now) }
{
    let mut made = FormulaRows {
        rows: List::new(alloc),
        branch: List::new(alloc),
        plain: true,
    };
    add_formula(alloc, f, &mut made)?;
    Ok(made)
}

fn add_row(alloc: Global, l: &Lin, made: &mut FormulaRows) -> Result<(), NoMemory>
    ensures rows { OnOk result (lins made.new.rows ≡ lins made.old.rows ++ l.now ∷ []) }
    ensures branch { OnOk result (made.new.branch ≡ made.old.branch) }
    ensures plain { OnOk result (made.new.plain ≡ made.old.plain) }
{
    let lin = l.copy(alloc)?;
    made.rows.push(Row { lin })
}

// An `Or` of another number than one of alternatives.
fn leave_out(made: &mut FormulaRows)
    ensures rows { made.new.rows ≡ made.old.rows }
    ensures branch { made.new.branch ≡ made.old.branch }
    ensures plain { made.new.plain ≡ false }
{
    made.plain = false;
}

#[cycle(rows)]
#[tactic(auto, using(crate::proofs::Shapes::shapes))]
fn add_formula(alloc: Global, f: &Formula, made: &mut FormulaRows) -> Result<(), NoMemory>
    ensures rows { OnOk result (lins made.new.rows ≡ lins made.old.rows ++ rows_of f.now) }
    ensures branch { OnOk result (made.new.branch ≡ made.old.branch ++ branch_of f.now) }
    ensures plain { OnOk result (made.new.plain ≡ (made.old.plain && is_plain f.now)) }
{
    match f {
        Formula::Le(l) => add_row(alloc, l, made),
        Formula::And(fs) => add_all(alloc, fs.as_slice(), made),
        Formula::Or(fs) => add_or(alloc, fs.as_slice(), made),
    }
}

#[cycle(rows)]
#[tactic(auto, using(crate::proofs::Shapes::shapes))]
fn add_or(alloc: Global, fs: &[Formula], made: &mut FormulaRows) -> Result<(), NoMemory>
    ensures rows { OnOk result (lins made.new.rows ≡ lins made.old.rows ++ only (map rows_of fs.now) [] (λ r. r)) }
    ensures branch { OnOk result (made.new.branch ≡ made.old.branch ++ only (map branch_of fs.now) [] (λ b. 0 ∷ b)) }
    ensures plain { OnOk result (made.new.plain ≡ (made.old.plain && only (map is_plain fs.now) false (λ b. b))) }
{
    match fs {
        [] => leave_out(made),
        [f] => {
            made.branch.push(0)?;
            add_formula(alloc, f, made)?;
        }
        [_, _, ..] => leave_out(made),
    }
    Ok(())
}

#[cycle(rows)]
#[tactic(auto, using(crate::proofs::Shapes::shapes))]
fn add_all(alloc: Global, fs: &[Formula], made: &mut FormulaRows) -> Result<(), NoMemory>
    ensures rows { OnOk result (lins made.new.rows ≡ lins made.old.rows ++ joined (map rows_of fs.now)) }
    ensures branch { OnOk result (made.new.branch ≡ made.old.branch ++ joined (map branch_of fs.now)) }
    ensures plain { OnOk result (made.new.plain ≡ (made.old.plain && list_all (λ b. b) (map is_plain fs.now))) }
{
    for f in fs {
        add_formula(alloc, f, made)?;
    }
    Ok(())
}

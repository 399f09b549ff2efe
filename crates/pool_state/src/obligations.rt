// The test of proofs: lemmas in order, and for each the rules in order.

ghost use Rattle.std.specs.Prelude.{◌≡◌, ◌≤◌, true, IfOk, Some, length};
ghost use Rattle.chc_nums.specs.declared.limits.TheConstants.{MAX_LEMMAS};
ghost use Rattle.chc_form.specs.declared.system.Part.TheVariants as part;
ghost use Rattle.chc_form.specs.WellMade.{well_made};
ghost use Rattle.chc_reduce.specs.Reduced.{reduced};
ghost use Rattle.chc_reduce.specs.Rows.{rows_of};
ghost use Rattle.chc_reduce.specs.Obligations.{at_rules, for_lemmas};
ghost use Rattle.chc_cert.specs.Passing.{passes};
ghost use Rattle.pool_state.specs.Tested.{tested, tested_one, Leaves};

use crate::fault::BatchFault;
use chc_form::{Lemma, Part, System};
use chc_nums::{List, NoMemory};
use chc_reduce::{formula_rows, reduce};
use std::alloc::Global;

// Whether a proof shows a lemma at a rule's head under the lemmas that are had.
fn is_shown(
    alloc: Global,
    s: &System,
    have: &[Lemma],
    rule: u32,
    l: &Lemma,
    proof: &[i128],
) -> Result<bool, NoMemory>
    requires { well_made s.now ≡ true }
    ensures { IfOk result (λ b. b ≡ passes proof.now (rows_of (reduced s.now (part.Rule rule) (Some l.now) have.now))) }
{
    let formula = reduce(alloc, s, Part::Rule(rule), Some(l), have)?;
    let made = formula_rows(alloc, &formula)?;
    chc_cert::passes(alloc, proof, made.rows.as_slice())
}

// The proofs that are left after the first has shown the lemma.
fn test_rule<'a>(
    alloc: Global,
    s: &System,
    have: &[Lemma],
    lemma: u32,
    rule: u32,
    l: &Lemma,
    proofs: &'a [List<i128>],
) -> Result<&'a [List<i128>], BatchFault>
    requires { well_made s.now ≡ true }
    ensures { Leaves (tested_one (record { lemma = lemma; rule = rule; formula = reduced s.now (part.Rule rule) (Some l.now) have.now }) proofs.now) result }
{
    match proofs {
        [] => Err(BatchFault::Unproved { lemma, rule }),
        [proof, more @ ..] => {
            if is_shown(alloc, s, have, rule, l, proof.as_slice())? {
                Ok(more)
            } else {
                Err(BatchFault::Unproved { lemma, rule })
            }
        }
    }
}

// The proofs that are left after those of one lemma.
#[tactic(auto, using(chc_reduce::proofs::Few::numbers))]
fn test_rules<'a>(
    alloc: Global,
    s: &System,
    have: &[Lemma],
    lemma: u32,
    l: &Lemma,
    proofs: &'a [List<i128>],
) -> Result<&'a [List<i128>], BatchFault>
    requires { well_made s.now ≡ true }
    ensures { Leaves (tested (at_rules s.now have.now lemma l.now 0 s.now.rules) proofs.now) result }
{
    let mut left = proofs;
    let mut rule = 0;
    let mut rest = s.rules.as_slice();
    while let [r, more @ ..] = rest {
        if r.head.pred == l.pred {
            left = test_rule(alloc, s, have, lemma, rule, l, left)?;
        }
        rule += 1;
        rest = more;
    }
    Ok(left)
}

// The proofs that are left after those of all lemmas.
#[tactic(auto, using(crate::proofs::Testing::appends))]
pub fn test_lemmas<'a>(
    alloc: Global,
    s: &System,
    have: &[Lemma],
    lemmas: &[Lemma],
    proofs: &'a [List<i128>],
) -> Result<&'a [List<i128>], BatchFault>
    requires made { well_made s.now ≡ true }
    requires few { length lemmas.now ≤ MAX_LEMMAS }
    ensures { Leaves (tested (for_lemmas s.now have.now 0 lemmas.now) proofs.now) result }
{
    let mut left = proofs;
    let mut lemma = 0;
    let mut rest = lemmas;
    while let [l, more @ ..] = rest {
        left = test_rules(alloc, s, have, lemma, l, left)?;
        lemma += 1;
        rest = more;
    }
    Ok(left)
}

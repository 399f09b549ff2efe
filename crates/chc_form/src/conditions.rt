// The test of systems that the engines ask for.

ghost use Rattle.std.specs.Prelude.{◌≡◌, ◌&&◌, slice_get};
ghost use Rattle.std.specs.List.{list_all};
ghost use Rattle.chc_form.specs.WellMade.{all_few, is_sort, is_number, ascends_from, ascends, is_sum, is_con, are_args, are_args_of, is_app, is_rule, is_query, well_made};

use crate::linear::Lin;
use crate::sorts::{
    are_few_sorts, are_preds, both_same, has_keys, has_sort, is_few, is_mapping, is_number,
};
use crate::system::{App, Con, Query, Rule, Sort, System};
use chc_nums::List;

/// Whether each list of the system is short, each size from 1 to 12, each number in range, each sum in order and
/// without mappings, and each atom, result and mapping has the sorts that stand there.
#[tactic(auto, unfolding(crate::specs::WellMade::well_made))]
pub fn well_made(s: &System) -> bool
    ensures { result ≡ well_made s.now }
{
    let preds = s.preds.as_slice();
    let rules = s.rules.as_slice();
    let queries = s.queries.as_slice();
    is_few(preds)
        && are_preds(preds)
        && is_few(rules)
        && are_rules(preds, rules)
        && is_few(queries)
        && are_queries(preds, queries)
}

// ---- sums, constraints and atoms

fn ascends_from(first: u32, terms: &[(u32, i128)]) -> bool
    ensures { result ≡ ascends_from first terms.now }
{
    let mut last = first;
    let mut rest = terms;
    while let [term, more @ ..] = rest {
        if term.0 <= last || term.1 == 0 {
            return false;
        }
        last = term.0;
        rest = more;
    }
    true
}

fn ascends(terms: &[(u32, i128)]) -> bool
    ensures { result ≡ ascends terms.now }
{
    match terms {
        [] => true,
        [term, more @ ..] => term.1 != 0 && ascends_from(term.0, more),
    }
}

fn are_numbers(vars: &[Sort], terms: &[(u32, i128)]) -> bool
    ensures { result ≡ list_all (λ t. is_number (slice_get vars.now t.0)) terms.now }
{
    terms.iter().all(|term| is_number(vars, term.0))
}

fn is_sum(vars: &[Sort], l: &Lin) -> bool
    ensures { result ≡ is_sum vars.now l.now }
{
    let terms = l.terms.as_slice();
    is_few(terms) && are_numbers(vars, terms) && ascends(terms)
}

fn are_sums(vars: &[Sort], ls: &[Lin]) -> bool
    ensures { result ≡ list_all (is_sum vars.now) ls.now }
{
    ls.iter().all(|l| is_sum(vars, l))
}

fn are_few_sums(vars: &[Sort], ls: &[Lin]) -> bool
    ensures { result ≡ all_few (is_sum vars.now) ls.now }
{
    is_few(ls) && are_sums(vars, ls)
}

fn is_con(vars: &[Sort], con: &Con) -> bool
    ensures { result ≡ is_con vars.now con.now }
{
    match con {
        Con::Le(l) | Con::Differ(l) => is_sum(vars, l),
        Con::Mul(a, b, x) | Con::Div(a, b, x) | Con::Rem(a, b, x) => {
            is_sum(vars, a) && is_sum(vars, b) && is_number(vars, *x)
        }
        Con::Sel(m, keys, x) => {
            let keys = keys.as_slice();
            are_few_sums(vars, keys) && has_keys(vars, *m, keys.len()) && is_number(vars, *x)
        }
        Con::Sto(new, old, keys, value) => {
            let keys = keys.as_slice();
            are_few_sums(vars, keys)
                && is_sum(vars, value)
                && has_keys(vars, *old, keys.len())
                && both_same(vars, *new, *old)
        }
        Con::Zero(m) => is_mapping(vars, *m),
    }
}

fn are_cons(vars: &[Sort], cons: &[Con]) -> bool
    ensures { result ≡ list_all (is_con vars.now) cons.now }
{
    cons.iter().all(|con| is_con(vars, con))
}

fn are_args(vars: &[Sort], sorts: &[Sort], args: &[u32]) -> bool
    ensures { result ≡ are_args vars.now sorts.now args.now }
{
    let mut ss = sorts;
    let mut xs = args;
    while let [s, more_ss @ ..] = ss {
        match xs {
            [] => return false,
            [x, more_xs @ ..] => {
                if !has_sort(vars, *x, s) {
                    return false;
                }
                ss = more_ss;
                xs = more_xs;
            }
        }
    }
    xs.is_empty()
}

fn are_args_of(preds: &[List<Sort>], vars: &[Sort], a: &App) -> bool
    ensures { result ≡ are_args_of vars.now (slice_get preds.now a.now.pred) a.now.args }
{
    match preds.get(a.pred as usize) {
        None => false,
        Some(sorts) => are_args(vars, sorts.as_slice(), a.args.as_slice()),
    }
}

fn is_app(preds: &[List<Sort>], vars: &[Sort], a: &App) -> bool
    ensures { result ≡ is_app preds.now vars.now a.now }
{
    is_few(a.args.as_slice()) && are_args_of(preds, vars, a)
}

fn are_apps(preds: &[List<Sort>], vars: &[Sort], body: &[App]) -> bool
    ensures { result ≡ list_all (is_app preds.now vars.now) body.now }
{
    body.iter().all(|a| is_app(preds, vars, a))
}

// ---- rules and queries

// What a rule and a query have in common: variables, atoms and constraints.
fn is_part(preds: &[List<Sort>], vars: &[Sort], body: &[App], cons: &[Con]) -> bool
    ensures { result ≡ (all_few is_sort vars.now && (all_few (is_app preds.now vars.now) body.now && all_few (is_con vars.now) cons.now)) }
{
    are_few_sorts(vars)
        && is_few(body)
        && are_apps(preds, vars, body)
        && is_few(cons)
        && are_cons(vars, cons)
}

fn is_rule(preds: &[List<Sort>], r: &Rule) -> bool
    ensures { result ≡ is_rule preds.now r.now }
{
    let vars = r.vars.as_slice();
    is_part(preds, vars, r.body.as_slice(), r.cons.as_slice()) && is_app(preds, vars, &r.head)
}

fn are_rules(preds: &[List<Sort>], rules: &[Rule]) -> bool
    ensures { result ≡ list_all (is_rule preds.now) rules.now }
{
    rules.iter().all(|r| is_rule(preds, r))
}

fn is_query(preds: &[List<Sort>], q: &Query) -> bool
    ensures { result ≡ is_query preds.now q.now }
{
    is_part(
        preds,
        q.vars.as_slice(),
        q.body.as_slice(),
        q.cons.as_slice(),
    )
}

fn are_queries(preds: &[List<Sort>], queries: &[Query]) -> bool
    ensures { result ≡ list_all (is_query preds.now) queries.now }
{
    queries.iter().all(|q| is_query(preds, q))
}

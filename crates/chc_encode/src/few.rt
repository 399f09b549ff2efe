// Whether the lists of a rule system are short.

ghost use Rattle.std.specs.Prelude.{◌≡◌};
ghost use Rattle.std.specs.List.{list_all};
ghost use Rattle.chc_form.specs.WellMade.{is_few};
ghost use Rattle.chc_encode.specs.Few.{rule_few, query_few, are_few};

use chc_form::{Query, Rule, System};

// Whether a list has fewer than 2^31 entries.
fn is_few<T>(entries: &[T]) -> bool
    ensures { result ≡ is_few entries.now }
{
    entries.len() < 1 << 31
}

fn rules_few(rules: &[Rule]) -> bool
    ensures { result ≡ list_all rule_few rules.now }
{
    rules
        .iter()
        .all(|r| is_few(r.vars.as_slice()) && is_few(r.cons.as_slice()))
}

fn queries_few(queries: &[Query]) -> bool
    ensures { result ≡ list_all query_few queries.now }
{
    queries
        .iter()
        .all(|q| is_few(q.vars.as_slice()) && is_few(q.cons.as_slice()))
}

/// Whether the rules, the queries, and the variables and constraints of each are fewer than 2^31.
#[tactic(auto, unfolding(crate::specs::Few::are_few))]
pub fn are_few(system: &System) -> bool
    ensures { result ≡ are_few system.now }
{
    let rules = system.rules.as_slice();
    let queries = system.queries.as_slice();
    is_few(rules) && rules_few(rules) && is_few(queries) && queries_few(queries)
}

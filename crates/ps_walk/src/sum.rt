// The value of a row's term at the values found so far.
ghost use Rattle.std.specs.Prelude.{◌≡◌, pos, SomeIff};
ghost use Rattle.ps_term.specs.Term.{value};
ghost use Rattle.ps_walk.specs.inner.Findings.{others, values_beside, found_values};
ghost use Rattle.ps_term.specs.Evaluation.{EvaluationFitsFrom};

use ps_term::{Row, Var, is_same, scaled_sum};
use std::collections::BTreeMap;

// The sum of each coefficient times its variable's value, but for the pair that is left out, and of the constant; or
// `None` where a product or a sum lies outside `i128`. Each pair takes one search in the map.
pub(crate) fn value_at(
    found: &BTreeMap<Var, i128>,
    row: &Row,
    left_out: Option<Var>,
) -> Option<i128>
    ensures { SomeIff result
        (EvaluationFitsFrom (found_values found.now) (pos 0)
        (others left_out row.now.term.pairs) row.now.term.constant)
        (value (found_values found.now)
        (record { pairs = others left_out row.now.term.pairs; constant = row.now.term.constant })) }
{
    let mut sum: i128 = 0;
    for pair in row.term.pairs.as_slice() {
        sum = scaled_sum(sum, pair.1, value_beside(found, left_out, pair.0))?;
    }
    sum.checked_add(row.term.constant)
}

fn value_beside(found: &BTreeMap<Var, i128>, left_out: Option<Var>, variable: Var) -> i128
    ensures { result ≡ values_beside left_out (found_values found.now) variable }
{
    match left_out {
        None => value_of(found, variable),
        Some(x) => {
            if is_same(variable, x) {
                0
            } else {
                value_of(found, variable)
            }
        }
    }
}

// The variable's value, or 0 where none was found.
fn value_of(found: &BTreeMap<Var, i128>, variable: Var) -> i128
    ensures { result ≡ found_values found.now variable }
{
    found.get(&variable).copied().unwrap_or(0)
}

//! Sums of terms, exact within 128 bits or refused.
ghost use Rattle.std.specs.Prelude.{◌≡◌, ◌+ℤ◌, ◌*ℤ◌, ◌++◌, FitsSigned, SomeIff, IfOk, OnOk, IsErrOf, ℤ};
ghost use Rattle.std.specs.Int.{w128};
ghost use Rattle.ps_term.specs.declared.var.Var.{Var};
ghost use Rattle.ps_term.specs.inner.Front.{front_coefficient, kept_pair, least_front};
ghost use Rattle.ps_term.specs.Pairs.{coefficient, IsCanonical, pairs_value};
ghost use Rattle.ps_term.specs.Sums.{PairsFit, ScaledFits, TermFits};
ghost use Rattle.ps_term.specs.Term.{value};

use crate::front::{in_front, past_front};
use crate::pairs::Pairs;
use crate::term::{Term, TermEnd};
use crate::var::{Var, is_before};
use std::alloc::{AllocError, Global};

/// `so_far + by * n`, or `None` where the product or the sum lies outside `i128`.
pub fn scaled_sum(so_far: i128, by: i128, n: i128) -> Option<i128>
    ensures { SomeIff result (ScaledFits so_far by n) (so_far +ℤ (by *ℤ n)) }
{
    so_far.checked_add(by.checked_mul(n)?)
}

/// Gives `a + by * b`, in time of the number of pairs of both. It is `Past128` where at a variable of
/// `b`, or at the constant, the product with `by` lies outside `i128`, or its sum with what `a` has.
pub fn add_scaled(alloc: Global, a: &Term, by: i128, b: &Term) -> Result<Term, TermEnd>
    ensures worth { IfOk result (λ sum. (values : Var → ℤ)
        → value values sum ≡ (value values a.now +ℤ (by *ℤ value values b.now))) }
    ensures coefficients { IfOk result (λ sum. (x : Var)
        → coefficient x sum.pairs
        ≡ (coefficient x a.now.pairs +ℤ (by *ℤ coefficient x b.now.pairs))) }
    ensures constant { IfOk result (λ sum.
        sum.constant ≡ (a.now.constant +ℤ (by *ℤ b.now.constant))) }
    ensures canonical { IfOk result (λ sum. IsCanonical sum.pairs) }
    ensures fits { OnOk result (TermFits a.now by b.now) }
    ensures past { IsErrOf result TermEnd.Past128 → ¬ TermFits a.now by b.now }
{
    let list = merged(alloc, a.pairs.as_slice(), by, b.pairs.as_slice())?;
    let constant = scaled_sum(a.constant, by, b.constant).ok_or(TermEnd::Past128)?;
    Ok(Term {
        pairs: Pairs::from_list(list),
        constant,
    })
}

// One merge of the two lists. A coefficient of `left` alone is met by a product with 0.
fn merged(
    alloc: Global,
    left: &[(Var, i128)],
    by: i128,
    right: &[(Var, i128)],
) -> Result<Vec<(Var, i128)>, TermEnd>
    requires left_canonical { IsCanonical left.now }
    requires right_canonical { IsCanonical right.now }
    ensures canonical { IfOk result (λ list. IsCanonical list.items) }
    ensures worth { IfOk result (λ list. (values : Var → ℤ)
        → pairs_value values list.items
        ≡ (pairs_value values left.now +ℤ (by *ℤ pairs_value values right.now))) }
    ensures fits { OnOk result (PairsFit left.now by right.now) }
    ensures past { IsErrOf result TermEnd.Past128 → ¬ PairsFit left.now by right.now }
{
    let most = left.len() + right.len();
    let mut list = Vec::with_capacity(alloc, most).map_err(TermEnd::Memory)?;
    let mut left_rest = left;
    let mut right_rest = right;
    'merging: while let Some(variable) = next_variable(left_rest, right_rest) {
        let sum = sum_in_front(variable, left_rest, by, right_rest).ok_or(TermEnd::Past128)?;
        keep(&mut list, variable, sum).map_err(TermEnd::Memory)?;
        left_rest = past_front(variable, left_rest);
        right_rest = past_front(variable, right_rest);
    }
    Ok(list)
}

fn next_variable(left: &[(Var, i128)], right: &[(Var, i128)]) -> Option<Var>
    ensures { result ≡ least_front left.now right.now }
{
    match (left.first(), right.first()) {
        (None, None) => None,
        (None, Some(q)) => Some(q.0),
        (Some(p), None) => Some(p.0),
        (Some(p), Some(q)) => Some(if is_before(q.0, p.0) { q.0 } else { p.0 }),
    }
}

fn sum_in_front(
    variable: Var,
    left: &[(Var, i128)],
    by: i128,
    right: &[(Var, i128)],
) -> Option<i128>
    ensures sum { SomeIff result
        (ScaledFits (front_coefficient variable left.now) by (front_coefficient variable right.now))
        (front_coefficient variable left.now +ℤ (by *ℤ front_coefficient variable right.now)) }
    ensures start { FitsSigned w128 (front_coefficient variable left.now) }
{
    scaled_sum(in_front(variable, left), by, in_front(variable, right))
}

// Adds the pair, unless its coefficient is 0.
pub(crate) fn keep(
    list: &mut Vec<(Var, i128)>,
    variable: Var,
    coefficient: i128,
) -> Result<(), AllocError>
    ensures { OnOk result (list.new.items ≡ list.old.items ++ kept_pair variable coefficient) }
{
    if coefficient == 0 {
        return Ok(());
    }
    list.push((variable, coefficient)).map_err(|_| AllocError)?;
    Ok(())
}

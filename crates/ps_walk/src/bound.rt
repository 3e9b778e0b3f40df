// The bound that one row gives to a variable.
ghost use Rattle.std.specs.Prelude.{◌≡◌, ◌≢◌, ◌↔◌, ℤ, pos, ◌+ℤ◌, ◌*ℤ◌, ◌<ℤ◌, ◌≤ℤ◌, FitsSigned, IfNone, IfSome, OnSome};
ghost use Rattle.std.specs.Int.{w128};
ghost use Rattle.ps_term.specs.Pairs.{coefficient};
ghost use Rattle.ps_walk.specs.Bounds.{BoundFits};
ghost use Rattle.ps_walk.specs.inner.Findings.{IsRowBound, found_values};

use crate::sum::value_at;
use ps_term::{Row, Var, ceil_div};
use std::collections::BTreeMap;

// What a row says of a variable.
#[derive(Clone, Copy, Debug)]
pub(crate) enum RowBound {
    // Nothing: the row lacks it.
    Free,
    AtLeast(i128),
    AtMost(i128),
}

// The row's bound, or `None` where the sum of the rest of the row, or the bound, lies outside `i128`.
pub(crate) fn bound_of(found: &BTreeMap<Var, i128>, variable: Var, row: &Row) -> Option<RowBound>
    ensures fits { OnSome result
        (coefficient variable row.now.term.pairs ≢ pos 0
        → BoundFits (found_values found.now) variable row.now) }
    ensures past { IfNone result
        (¬ (coefficient variable row.now.term.pairs ≢ pos 0
        → BoundFits (found_values found.now) variable row.now)) }
    ensures bound { IfSome result (IsRowBound (found_values found.now) variable row.now) }
{
    let coefficient = row.term.pairs.coefficient(variable);
    if coefficient == 0 {
        return Some(RowBound::Free);
    }
    let rest = value_at(found, row, Some(variable))?;
    if coefficient > 0 {
        Some(RowBound::AtMost(greatest(coefficient, rest)?))
    } else {
        Some(RowBound::AtLeast(least(coefficient, rest)))
    }
}

// The greatest n with `a * n + c <= 0`.
fn greatest(a: i128, c: i128) -> Option<i128>
    requires { pos 0 <ℤ a }
    ensures bound { IfSome result (λ u. (n : ℤ) → (((a *ℤ n) +ℤ c) ≤ℤ pos 0) ↔ (n ≤ℤ u)) }
    ensures past { IfNone result ((u : ℤ) × ((n : ℤ) → (((a *ℤ n) +ℤ c) ≤ℤ pos 0) ↔ (n ≤ℤ u))
        × ¬ FitsSigned w128 u) }
{
    ceil_div(c, a).checked_neg()
}

// The least n with `a * n + c <= 0`.
fn least(a: i128, c: i128) -> i128
    requires { a <ℤ pos 0 }
    ensures { (n : ℤ) → (((a *ℤ n) +ℤ c) ≤ℤ pos 0) ↔ (result ≤ℤ n) }
{
    match a.checked_neg() {
        Some(b) => ceil_div(c, b),
        None => least_at_least(c),
    }
}

// The same for the least `i128`, which has no negation.
fn least_at_least(c: i128) -> i128
    ensures { (n : ℤ) → (((i128.MIN *ℤ n) +ℤ c) ≤ℤ pos 0) ↔ (result ≤ℤ n) }
{
    if c > 0 {
        1
    } else if c == i128::MIN {
        -1
    } else {
        0
    }
}

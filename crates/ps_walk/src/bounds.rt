// The bounds that rows give to a variable, and the number between them that is nearest to 0.
ghost use Rattle.std.specs.Prelude.{◌↔◌, ◌≤ℤ◌, ℤ, Some, IfNone, IfSome, OnSome};
ghost use Rattle.ps_walk.specs.Bounds.{StageFits};
ghost use Rattle.ps_walk.specs.inner.Findings.{AreBounds, IsAtLeast, IsAtMost, IsChoice, IsFinding, lower_of, upper_of, found_values};

use crate::bound::{RowBound, bound_of};
use crate::finding::Finding;
use ps_term::{Row, Var};
use std::collections::BTreeMap;

// A side without a bound allows all numbers.
#[derive(Clone, Copy, Debug)]
pub(crate) struct Bounds {
    pub lower: Option<i128>,
    pub upper: Option<i128>,
}

// What the rows of a stage leave to its variable, at the values of the later ones. It takes one pass over the rows.
pub(crate) fn find(found: &BTreeMap<Var, i128>, variable: Var, rows: &[Row]) -> Finding
    ensures { IsFinding (found_values found.now) variable rows.now result }
{
    match bounds_of(found, variable, rows) {
        None => Finding::Past128,
        Some(bounds) => nearest(bounds),
    }
}

fn bounds_of(found: &BTreeMap<Var, i128>, variable: Var, rows: &[Row]) -> Option<Bounds>
    ensures fits { OnSome result (StageFits (found_values found.now) variable rows.now) }
    ensures past { IfNone result (¬ StageFits (found_values found.now) variable rows.now) }
    ensures bounds { IfSome result (AreBounds (found_values found.now) variable rows.now) }
{
    let mut bounds = Bounds {
        lower: None,
        upper: None,
    };
    for row in rows {
        bounds = narrowed(bounds, bound_of(found, variable, row)?);
    }
    Some(bounds)
}

// The bounds, with that of one more row.
fn narrowed(bounds: Bounds, by: RowBound) -> Bounds
    ensures lower { (n : ℤ)
        → IsAtLeast result.lower n ↔ (IsAtLeast bounds.lower n × IsAtLeast (lower_of by) n) }
    ensures upper { (n : ℤ)
        → IsAtMost result.upper n ↔ (IsAtMost bounds.upper n × IsAtMost (upper_of by) n) }
{
    match by {
        RowBound::Free => bounds,
        RowBound::AtLeast(n) => Bounds {
            lower: Some(greater(bounds.lower, n)),
            upper: bounds.upper,
        },
        RowBound::AtMost(n) => Bounds {
            lower: bounds.lower,
            upper: Some(lesser(bounds.upper, n)),
        },
    }
}

fn greater(bound: Option<i128>, n: i128) -> i128
    ensures { (m : ℤ) → (result ≤ℤ m) ↔ (IsAtLeast bound m × (n ≤ℤ m)) }
{
    match bound {
        None => n,
        Some(other) => other.max(n),
    }
}

fn lesser(bound: Option<i128>, n: i128) -> i128
    ensures { (m : ℤ) → (m ≤ℤ result) ↔ (IsAtMost bound m × (m ≤ℤ n)) }
{
    match bound {
        None => n,
        Some(other) => other.min(n),
    }
}

// The number between the bounds that is nearest to 0, if there is one.
fn nearest(bounds: Bounds) -> Finding
    ensures { IsChoice bounds result }
{
    match (bounds.lower, bounds.upper) {
        (None, None) => Finding::Value(0),
        (Some(lower), None) => Finding::Value(lower.max(0)),
        (None, Some(upper)) => Finding::Value(upper.min(0)),
        (Some(lower), Some(upper)) => nearest_between(lower, upper),
    }
}

fn nearest_between(lower: i128, upper: i128) -> Finding
    ensures { IsChoice (record { lower = Some lower; upper = Some upper }) result }
{
    if lower > upper {
        Finding::Nothing { lower, upper }
    } else {
        Finding::Value(0i128.clamp(lower, upper))
    }
}

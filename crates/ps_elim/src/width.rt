// How wide the first stage of an elimination is, told before any vector is made.
ghost use Rattle.std.specs.Prelude.{◌≡◌, ◌<◌, ◌≤◌, ◌^◌, length};
ghost use Rattle.std.specs.List.{filter};
ghost use Rattle.ps_elim.specs.Elimination.{IsTooWide};
ghost use Rattle.ps_elim.specs.Stages.{variables};
ghost use Rattle.ps_elim.specs.inner.Weighing.{is_of};
ghost use Rattle.ps_elim.specs.inner.Width.{width_of_rows};
ghost use Rattle.ps_elim.specs.declared.limits.TheConstants.{MOST_VECTORS};
ghost use Rattle.ps_term.specs.Pairs.{coefficient};

use crate::sign::{Sign, has_sign};
use ps_term::{Row, Var};

// Of how many vectors the set after the first variable is made, or 0 where there is no variable.
pub(crate) fn first_width(rows: &[Row], order: &[Var]) -> u64
    requires few { length rows.now < 2 ^ 32 }
    requires order { order.now ≡ variables rows.now }
    ensures { MOST_VECTORS < result → IsTooWide rows.now 0 result }
{
    match order.first() {
        Some(variable) => width_of_rows(rows, *variable),
        None => 0,
    }
}

// For each of the first vectors its row is a given one, so the signs are those of the given rows.
fn width_of_rows(rows: &[Row], variable: Var) -> u64
    requires { length rows.now < 2 ^ 32 }
    ensures { result ≡ width_of_rows variable rows.now }
{
    let zeros = count_of(rows, variable, Sign::Zero) as u64;
    let positives = count_of(rows, variable, Sign::Positive) as u64;
    let negatives = count_of(rows, variable, Sign::Negative) as u64;
    zeros + positives * negatives
}

// How many rows have a coefficient of the sign.
#[tactic(auto, using(crate::proofs::Widths::count_step))]
fn count_of(rows: &[Row], variable: Var, sign: Sign) -> usize
    ensures count { result
        ≡ length (filter (λ r. is_of sign (coefficient variable r.term.pairs)) rows.now) }
    ensures few { result ≤ length rows.now }
{
    let mut count = 0;
    for row in rows {
        if !has_sign(sign, row.term.pairs.coefficient(variable)) {
            continue;
        }
        count += 1;
    }
    count
}

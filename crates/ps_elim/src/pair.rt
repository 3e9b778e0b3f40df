// The vector of a pair of vectors whose rows have opposite coefficients at a variable.
ghost use Rattle.std.specs.Prelude.{◌≡◌, ◌<◌, ◌^◌, ◌↔◌, ◌+ℤ◌, ◌*ℤ◌, ◌<ℤ◌, pos, List, IfOk, OnOk, IsErrOf, IsTrue};
ghost use Rattle.ps_elim.specs.Combining.{CombinationFits, combined};
ghost use Rattle.ps_elim.specs.inner.Weighing.{IsPairable, IsWeighted};
ghost use Rattle.ps_elim.specs.inner.Weights.{AreWeights, TermsFit};
ghost use Rattle.ps_elim.specs.declared.sign.Sign.TheVariants.{Positive, Negative};
ghost use Rattle.ps_term.specs.declared.row.Row.{Row};
ghost use Rattle.ps_term.specs.declared.var.Var.{Var};
ghost use Rattle.ps_term.specs.Pairs.{coefficient};

use crate::reduce::reduced;
use crate::sum::weighted_sum;
use crate::weighted::Weighted;
use ps_term::{Row, TermEnd, Var, gcd};
use std::alloc::Global;

// How often each of two vectors is taken.
#[derive(Clone, Copy, Debug, PartialEq, Eq)]
pub(crate) struct Weights {
    pub(crate) first: u128,
    pub(crate) second: u128,
}

// The least sum of the two in which the variable vanishes, divided by what its entries have in common.
pub(crate) fn combined(
    alloc: Global,
    variable: Var,
    p: &Weighted,
    q: &Weighted,
) -> Result<Weighted, TermEnd>
    ghost rows: { List Row }
    requires first { IsPairable rows Positive variable p.now }
    requires second { IsPairable rows Negative variable q.now }
    ensures weighted { IfOk result (IsWeighted rows) }
    ensures vector { IfOk result
        (λ made. made.vector ≡ combined rows variable p.now.vector q.now.vector) }
    ensures fits { OnOk result (CombinationFits rows variable p.now.vector q.now.vector) }
    ensures past { IsErrOf result TermEnd.Past128
        → ¬ CombinationFits rows variable p.now.vector q.now.vector }
{
    let weights = weights_of(variable, &p.row, &q.row);
    let row = weighted_row(alloc, weights, &p.row, &q.row)?;
    let vector = p.vector.weighted_sum(alloc, weights, &q.vector)?;
    reduced(alloc, vector, row).map_err(TermEnd::Memory)
}

// The least weights with which the variable vanishes in the sum of the two rows.
fn weights_of(variable: Var, p: &Row, q: &Row) -> Weights
    requires { pos 0 <ℤ coefficient variable p.now.term.pairs }
    ensures weights { AreWeights variable p.now q.now result }
    ensures small { result.second < 2 ^ 127 }
{
    let first_size = p.term.pairs.coefficient(variable).unsigned_abs();
    let second_size = q.term.pairs.coefficient(variable).unsigned_abs();
    let common = gcd(first_size, second_size);
    Weights {
        first: second_size / common,
        second: first_size / common,
    }
}

// The sum of the two rows.
fn weighted_row(alloc: Global, weights: Weights, p: &Row, q: &Row) -> Result<Row, TermEnd>
    requires positive { (x : Var) × (pos 0 <ℤ coefficient x p.now.term.pairs) }
    requires second { weights.second < 2 ^ 127 }
    ensures coefficients { IfOk result (λ sum. (x : Var) → coefficient x sum.term.pairs
        ≡ ((pos weights.first *ℤ coefficient x p.now.term.pairs) +ℤ
        (pos weights.second *ℤ coefficient x q.now.term.pairs))) }
    ensures constant { IfOk result (λ sum. sum.term.constant
        ≡ ((pos weights.first *ℤ p.now.term.constant) +ℤ
        (pos weights.second *ℤ q.now.term.constant))) }
    ensures small { OnOk result (weights.first < 2 ^ 127) }
    ensures fits { OnOk result (TermsFit weights.first p.now.term weights.second q.now.term) }
    ensures past { IsErrOf result TermEnd.Past128
        → ¬ TermsFit weights.first p.now.term weights.second q.now.term }
{
    if !is_within(weights.first) {
        return Err(TermEnd::Past128);
    }
    let term = weighted_sum(alloc, weights, &p.term, &q.term)?;
    Ok(Row { term })
}

// Whether the number is within `i128`.
fn is_within(n: u128) -> bool
    ensures { IsTrue result ↔ (n < 2 ^ 127) }
{
    n <= i128::MAX as u128
}

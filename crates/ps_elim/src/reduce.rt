// Vectors divided by what their entries have in common, with their rows.
ghost use Rattle.std.specs.Prelude.{◌≡◌, ◌<◌, ◌^◌, ◌*ℤ◌, pos, List, All, length, unsigned_abs, IfOk};
ghost use Rattle.std.specs.Int.{◌∣◌};
ghost use Rattle.ps_elim.specs.Divisors.{reduced};
ghost use Rattle.ps_elim.specs.Places.{support_of};
ghost use Rattle.ps_elim.specs.Vectors.{IsSum};
ghost use Rattle.ps_elim.specs.inner.Weighing.{IsWeighted};
ghost use Rattle.ps_term.specs.inner.Common.{IsCommonFactor};
ghost use Rattle.ps_term.specs.Pairs.{coefficient};
ghost use Rattle.ps_term.specs.declared.row.Row.{Row};
ghost use Rattle.ps_term.specs.declared.var.Var.{Var};

use crate::support::Support;
use crate::vector::Vector;
use crate::weighted::Weighted;
use ps_term::{Pairs, Row, Term, Var, ceil_div, divided, gcd};
use std::alloc::{AllocError, Global};

// The vector divided by what its entries have in common, with its row divided by the same.
pub(crate) fn reduced(alloc: Global, vector: Vector, row: Row) -> Result<Weighted, AllocError>
    ghost rows: { List Row }
    requires long { length vector ≡ length rows }
    requires small { All (λ n. n < 2 ^ 127) vector }
    requires sum { IsSum rows vector row }
    ensures weighted { IfOk result (IsWeighted rows) }
    ensures vector { IfOk result (λ made. made.vector ≡ reduced vector) }
{
    let divisor = vector.divisor();
    if divisor <= 1 {
        return with_support(alloc, vector, row);
    }
    let term = divided_term(alloc, &row.term, divisor)?;
    let vector = vector.divided(alloc, divisor)?;
    with_support(alloc, vector, Row { term })
}

pub(crate) fn with_support(alloc: Global, vector: Vector, row: Row) -> Result<Weighted, AllocError>
    ensures vector { IfOk result (λ made. made.vector ≡ vector) }
    ensures row { IfOk result (λ made. made.row ≡ row) }
    ensures support { IfOk result (λ made. made.support ≡ support_of vector) }
{
    let support = Support::new(alloc, &vector)?;
    Ok(Weighted {
        vector,
        row,
        support,
    })
}

// The greatest number that divides all coefficients.
pub(crate) fn divisor_of(pairs: &[(Var, i128)]) -> u128
    ensures { IsCommonFactor pairs.now result }
{
    let mut divisor = 0;
    for pair in pairs {
        divisor = gcd(divisor, pair.1.unsigned_abs());
    }
    divisor
}

// The term divided by a number that divides all of it.
pub(crate) fn divided_term(alloc: Global, term: &Term, divisor: u128) -> Result<Term, AllocError>
    requires positive { 1 < divisor }
    requires small { divisor < 2 ^ 127 }
    requires coefficients { (x : Var) → divisor ∣ unsigned_abs (coefficient x term.now.pairs) }
    requires constant { divisor ∣ unsigned_abs term.now.constant }
    ensures coefficients { IfOk result (λ new. (x : Var) → coefficient x term.now.pairs
        ≡ (pos divisor *ℤ coefficient x new.pairs)) }
    ensures constant { IfOk result (λ new. term.now.constant ≡ (pos divisor *ℤ new.constant)) }
{
    let list = divided(alloc, term.pairs.as_slice(), divisor)?;
    let constant = ceil_div(term.constant, divisor as i128);
    Ok(Term {
        pairs: Pairs::from_list(list),
        constant,
    })
}

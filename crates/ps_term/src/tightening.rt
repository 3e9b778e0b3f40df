//! Rows divided by what their coefficients have in common.
ghost use Rattle.std.specs.Prelude.{◌≡◌, ◌≢◌, ◌≤◌, ◌↔◌, [], ℤ, IfOk};
ghost use Rattle.ps_term.specs.declared.var.Var.{Var};
ghost use Rattle.ps_term.specs.Factors.{AreDivided, DividesAll};
ghost use Rattle.ps_term.specs.inner.Common.{IsCommonFactor};
ghost use Rattle.ps_term.specs.Pairs.{IsCanonical};
ghost use Rattle.ps_term.specs.Row.{Holds};
ghost use Rattle.ps_term.specs.Tightened.{IsTightened};

use crate::pairs::Pairs;
use crate::row::Row;
use crate::term::Term;
use crate::var::Var;
use crate::whole::{ceil_quotient, gcd};
use std::alloc::{AllocError, Global};

/// The row divided by the greatest common divisor of its coefficients, its constant rounded up. The
/// same whole numbers satisfy it. A row without variables stays as it is. No value leaves 128 bits.
/// In time of one common divisor for each pair, and memory of the pairs; nothing is divided by 1.
pub fn tighten(alloc: Global, row: &Row) -> Result<Row, AllocError>
    ensures tightened { IfOk result (λ new.
        row.now.term.pairs ≢ [] → IsTightened row.now new) }
    ensures unchanged { IfOk result (λ new. row.now.term.pairs ≡ [] → new ≡ row.now) }
    ensures same { IfOk result (λ new. (values : Var → ℤ)
        → Holds values new ↔ Holds values row.now) }
    ensures canonical { IfOk result (λ new. IsCanonical new.term.pairs) }
{
    let factor = common_factor(row.term.pairs.as_slice());
    if factor == 0 {
        return row.copy(alloc);
    }
    if factor == 1 {
        return tight_copy(alloc, row);
    }
    divided_row(alloc, row, factor)
}

// A row whose coefficients have nothing in common is tight as it is.
fn tight_copy(alloc: Global, row: &Row) -> Result<Row, AllocError>
    requires { IsCommonFactor row.now.term.pairs 1 }
    ensures tightened { IfOk result (IsTightened row.now) }
    ensures same { IfOk result (λ new. (values : Var → ℤ)
        → Holds values new ↔ Holds values row.now) }
    ensures canonical { IfOk result (λ new. IsCanonical new.term.pairs) }
{
    let _pairs = row.term.pairs.as_slice();
    row.copy(alloc)
}

fn divided_row(alloc: Global, row: &Row, factor: u128) -> Result<Row, AllocError>
    requires positive { 1 ≤ factor }
    requires common { IsCommonFactor row.now.term.pairs factor }
    ensures tightened { IfOk result (IsTightened row.now) }
    ensures same { IfOk result (λ new. (values : Var → ℤ)
        → Holds values new ↔ Holds values row.now) }
    ensures canonical { IfOk result (λ new. IsCanonical new.term.pairs) }
{
    let list = divided(alloc, row.term.pairs.as_slice(), factor)?;
    let constant = ceil_quotient(row.term.constant, factor);
    Ok(Row {
        term: Term {
            pairs: Pairs::from_list(list),
            constant,
        },
    })
}

fn common_factor(pairs: &[(Var, i128)]) -> u128
    ensures { IsCommonFactor pairs.now result }
{
    let mut factor = 0;
    for pair in pairs {
        factor = gcd(factor, pair.1.unsigned_abs());
    }
    factor
}

/// The pairs with each coefficient divided by a factor of all of them, in time and memory of their number.
pub fn divided(
    alloc: Global,
    pairs: &[(Var, i128)],
    factor: u128,
) -> Result<Vec<(Var, i128)>, AllocError>
    requires positive { 1 ≤ factor }
    requires divides { DividesAll factor pairs.now }
    ensures { IfOk result (λ list. AreDivided factor pairs.now list.items) }
{
    let mut list = Vec::with_capacity(alloc, pairs.len())?;
    for pair in pairs {
        let coefficient = ceil_quotient(pair.1, factor);
        list.push((pair.0, coefficient)).map_err(|_| AllocError)?;
    }
    Ok(list)
}

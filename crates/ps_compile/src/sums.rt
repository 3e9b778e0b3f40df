// The terms of sums, and the rows of bounds.
ghost use Rattle.std.specs.Prelude.{◌≡◌, ℕ, IfOk, IsErrOf};
ghost use Rattle.ps_compile.specs.Conditions.{IsCompilableSum};
ghost use Rattle.ps_compile.specs.Ops.{bound_row, sum_term};
ghost use Rattle.ps_compile.specs.inner.Near.{IsNear};

use crate::terms::add_products;
use ps_term::{Row, Term, TermEnd};
use ps_tree::Sum;
use std::alloc::Global;

// The term of a sum, in time of its products times its variables. It is `Past128` only where a
// number isn't small.
pub(crate) fn sum_term(alloc: Global, sum: &Sum) -> Result<Term, TermEnd>
    ensures is { IfOk result (λ term. term ≡ sum_term sum.now) }
    ensures past { IsErrOf result TermEnd.Past128 → (globals locals : ℕ)
        → IsCompilableSum globals locals sum.now → ⊥ }
{
    let zero = Term::from_constant(alloc, 0);
    add_products(alloc, zero, 1, sum.terms.as_slice())
}

// The row `left - right + plus <= 0`, in time of the sums' products times their variables. It is
// `Past128` only where a number isn't small.
pub(crate) fn bound_row(alloc: Global, left: &Sum, right: &Sum, plus: i128) -> Result<Row, TermEnd>
    ensures is { IfOk result (λ row. row ≡ bound_row (record {
      left = left.now;
      right = right.now;
      plus = plus;
    })) }
    ensures past { IsErrOf result TermEnd.Past128 → (globals locals : ℕ)
        → IsCompilableSum globals locals left.now → IsCompilableSum globals locals right.now
        → IsNear 1 plus → ⊥ }
{
    let constant = Term::from_constant(alloc, plus);
    let minus_right = match add_products(alloc, constant, -1, right.terms.as_slice()) {
        Ok(term) => term,
        Err(end) => return Err(end),
    };
    match add_products(alloc, minus_right, 1, left.terms.as_slice()) {
        Ok(term) => Ok(Row { term }),
        Err(end) => Err(end),
    }
}

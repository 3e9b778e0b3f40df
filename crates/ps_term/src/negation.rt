//! Negated rows.
ghost use Rattle.std.specs.Prelude.{◌≡◌, ◌↔◌, ◌-ℤ◌, pos, neg_ℤ, ℤ, IfOk, OnOk, IsErrOf};
ghost use Rattle.ps_term.specs.declared.var.Var.{Var};
ghost use Rattle.ps_term.specs.Negation.{NegationFits};
ghost use Rattle.ps_term.specs.Pairs.{coefficient, IsCanonical};
ghost use Rattle.ps_term.specs.Row.{Holds};

use crate::row::Row;
use crate::sums::add_scaled;
use crate::term::{Term, TermEnd};
use std::alloc::Global;

/// The row `1 - t <= 0` of a row `t <= 0`, which whole numbers satisfy exactly where they do not
/// satisfy that one. It is `Past128` where -1 times a coefficient or the constant, or 1 with the latter
/// added, lies outside `i128`. In time and memory of the pairs.
pub fn negate(alloc: Global, row: &Row) -> Result<Row, TermEnd>
    ensures negates { IfOk result (λ new. (values : Var → ℤ)
        → Holds values new ↔ ¬ Holds values row.now) }
    ensures coefficients { IfOk result (λ new. (x : Var)
        → coefficient x new.term.pairs ≡ neg_ℤ (coefficient x row.now.term.pairs)) }
    ensures constant { IfOk result (λ new. new.term.constant ≡ (pos 1 -ℤ row.now.term.constant)) }
    ensures canonical { IfOk result (λ new. IsCanonical new.term.pairs) }
    ensures fits { OnOk result (NegationFits row.now) }
    ensures past { IsErrOf result TermEnd.Past128 → ¬ NegationFits row.now }
{
    let one = Term::from_constant(alloc, 1);
    match add_scaled(alloc, &one, -1, &row.term) {
        Ok(term) => Ok(Row { term }),
        Err(end) => Err(end),
    }
}

// Weighted sums of two terms.
ghost use Rattle.std.specs.Prelude.{◌≡◌, ◌<◌, ◌^◌, ◌+ℤ◌, ◌*ℤ◌, pos, IfOk, IsErrOf, OnOk};
ghost use Rattle.ps_elim.specs.inner.Weights.{TermsFit};
ghost use Rattle.ps_term.specs.declared.var.Var.{Var};
ghost use Rattle.ps_term.specs.Pairs.{coefficient};

use crate::pair::Weights;
use ps_term::{Term, TermEnd, add_scaled};
use std::alloc::Global;

// So often the one term and so often the other.
pub(crate) fn weighted_sum(
    alloc: Global,
    weights: Weights,
    p: &Term,
    q: &Term,
) -> Result<Term, TermEnd>
    requires first { weights.first < 2 ^ 127 }
    requires second { weights.second < 2 ^ 127 }
    ensures coefficients { IfOk result (λ sum. (x : Var) → coefficient x sum.pairs
        ≡ ((pos weights.first *ℤ coefficient x p.now.pairs) +ℤ
        (pos weights.second *ℤ coefficient x q.now.pairs))) }
    ensures constant { IfOk result (λ sum. sum.constant
        ≡ ((pos weights.first *ℤ p.now.constant) +ℤ (pos weights.second *ℤ q.now.constant))) }
    ensures fits { OnOk result (TermsFit weights.first p.now weights.second q.now) }
    ensures past { IsErrOf result TermEnd.Past128
        → ¬ TermsFit weights.first p.now weights.second q.now }
{
    // The proof takes from these calls that each variable stands once.
    let _first_pairs = p.pairs.as_slice();
    let _second_pairs = q.pairs.as_slice();
    let none = Term::from_constant(alloc, 0);
    let part = add_scaled(alloc, &none, weights.first as i128, p)?;
    add_scaled(alloc, &part, weights.second as i128, q)
}

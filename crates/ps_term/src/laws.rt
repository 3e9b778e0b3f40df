//! Facts about terms that callers cite: each function does no work, and its clause is the fact.
ghost use Rattle.std.specs.Prelude.{◌≡◌, ℤ};
ghost use Rattle.ps_term.specs.declared.var.Var.{Var};
ghost use Rattle.ps_term.specs.Pairs.{coefficient};
ghost use Rattle.ps_term.specs.Term.{value};

use crate::pairs::Pairs;
use crate::term::Term;

/// Two lists of pairs with the same coefficient at each variable are one list.
pub fn told_by_coefficients(a: &Pairs, b: &Pairs)
    ensures { ((x : Var) → coefficient x a.now ≡ coefficient x b.now) → a.now ≡ b.now }
{
    let _left = a.as_slice();
    let _right = b.as_slice();
}

/// Two terms that are worth the same at all values are one term.
pub fn told_by_values(a: &Term, b: &Term)
    ensures { ((values : Var → ℤ) → value values a.now ≡ value values b.now) → a.now ≡ b.now }
{
    let _left = a.pairs.as_slice();
    let _right = b.pairs.as_slice();
}

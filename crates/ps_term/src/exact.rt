//! What exact terms are: each function does no work, and its clauses are the facts.
ghost use Rattle.std.specs.Prelude.{◌≡◌, ◌+ℤ◌, ◌*ℤ◌, List, ℤ};
ghost use Rattle.ps_term.specs.declared.term.Term.{Term};
ghost use Rattle.ps_term.specs.declared.var.Var.{Var};
ghost use Rattle.ps_term.specs.Exact.{plus_scaled, substituted, with_pair};
ghost use Rattle.ps_term.specs.Pairs.{IsCanonical, pairs_value};
ghost use Rattle.ps_term.specs.Substitution.{values_after};
ghost use Rattle.ps_term.specs.Term.{value};

/// One product more is added to canonical pairs: they are worth it more, and are canonical.
pub fn products_are_exact()
    ensures worth { (values : Var → ℤ) (x : Var) (n : ℤ) (ps : List (Var × ℤ))
        → pairs_value values (with_pair x n ps) ≡ ((n *ℤ values x) +ℤ pairs_value values ps) }
    ensures canonical { (x : Var) (n : ℤ) (ps : List (Var × ℤ))
        → IsCanonical ps → IsCanonical (with_pair x n ps) }
{}

/// The term `a + by * b` is canonical where `a` is, is worth that at all values, and is the only such one.
/// So it is what `add_scaled` answers.
pub fn sums_are_exact()
    ensures worth { (values : Var → ℤ) (a b : Term) (by : ℤ)
        → value values (plus_scaled a by b) ≡ (value values a +ℤ (by *ℤ value values b)) }
    ensures canonical { (a b : Term) (by : ℤ)
        → IsCanonical a.pairs → IsCanonical (plus_scaled a by b).pairs }
    ensures only { (sum a b : Term) (by : ℤ) → IsCanonical a.pairs → IsCanonical sum.pairs
        → ((values : Var → ℤ) → value values sum ≡ (value values a +ℤ (by *ℤ value values b)))
        → sum ≡ plus_scaled a by b }
{}

/// A substituted term is canonical, is worth the term at the values that the list gives, and is the only
/// such one. So it is what `substitute` answers.
pub fn substitutions_are_exact()
    ensures worth { (values : Var → ℤ) (after : List (Var × Term)) (a : Term)
        → value values (substituted after a) ≡ value (values_after values after) a }
    ensures canonical { (after : List (Var × Term)) (a : Term)
        → IsCanonical (substituted after a).pairs }
    ensures only { (term : Term) (after : List (Var × Term)) (a : Term) → IsCanonical term.pairs
        → ((values : Var → ℤ) → value values term ≡ value (values_after values after) a)
        → term ≡ substituted after a }
{}

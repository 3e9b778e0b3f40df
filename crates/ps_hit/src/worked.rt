//! Worked examples of hitting sets: each function does no work, and its clauses are the example.
ghost use Rattle.std.specs.Prelude.{[], ◌∷◌, ℕ, List};
ghost use Rattle.ps_hit.specs.Examples.{two_sets};
ghost use Rattle.ps_hit.specs.Hitting.{IsHit, IsMinimalHit};

/// Of the sets 1 2 and 2 3 the set 2 is a minimal hitting set.
pub fn two_is_minimal()
    ensures { IsMinimalHit two_sets (2 ∷ []) }
{}

/// The set 1 2 meets both too and isn't minimal, since 2 alone does.
pub fn one_and_two_are_not_minimal()
    ensures hits { IsHit two_sets (1 ∷ 2 ∷ []) }
    ensures minimal { ¬ IsMinimalHit two_sets (1 ∷ 2 ∷ []) }
{}

/// Of no sets the empty set is a minimal hitting set.
pub fn the_empty_set_meets_no_sets()
    ensures { IsMinimalHit [] [] }
{}

/// Nothing meets an empty set.
pub fn an_empty_set_is_never_met()
    ensures { (hit : List ℕ) → ¬ IsHit ([] ∷ []) hit }
{}

//! Facts about the definitions of the elimination that readers and callers cite: each function does no work, and its
//! clause is the fact.
ghost use Rattle.std.specs.Prelude.{◌≡◌, ◌≢◌, ◌↔◌, ℕ, All, AllPairs, Contains, List, map};
ghost use Rattle.std.specs.Int.{◌∣◌, IsGcd};
ghost use Rattle.ps_elim.specs.Ascending.{Ascend};
ghost use Rattle.ps_elim.specs.Divisors.{common_divisor, divisor_of_all};
ghost use Rattle.ps_elim.specs.Elimination.{AreStagesOf, IsElimination};
ghost use Rattle.ps_elim.specs.Refutation.{HasCanonicalRows};
ghost use Rattle.ps_elim.specs.Stages.{variables};
ghost use Rattle.ps_elim.specs.Supports.{IsLeastIn, kept};
ghost use Rattle.ps_elim.specs.declared.answer.Elim.{Elim};

use crate::answer::Elim;
use crate::stage::Stage;
use ps_term::Row;

/// The common divisor of two numbers divides both, and each number that divides both divides it.
pub fn common_divisor_is_greatest()
    ensures { (a b : ℕ) → IsGcd a b (common_divisor a b) }
{}

/// What the entries of a vector have in common divides each of them, and each number that does divides it.
pub fn divisor_of_all_is_greatest()
    ensures divides { (ns : List ℕ) → All (λ n. divisor_of_all ns ∣ n) ns }
    ensures greatest { (ns : List ℕ) (d : ℕ) → All (λ n. d ∣ n) ns → d ∣ divisor_of_all ns }
{}

/// As a set, the vectors that are kept are exactly those whose support strictly contains that of no other one, and of
/// several with one support the least; and each is kept once.
pub fn kept_vectors_are_least()
    ensures least { (vs : List (List ℕ)) (v : List ℕ) → Contains (kept vs) v ↔ IsLeastIn vs v }
    ensures once { (vs : List (List ℕ)) → AllPairs (λ u v. u ≢ v) (kept vs) }
{}

/// The variables of rows, and so those of the stages of their elimination, strictly ascend.
pub fn variables_strictly_ascend(rows: &[Row], stages: &[Stage])
    ensures rows { Ascend (variables rows.now) }
    ensures stages { AreStagesOf rows.now stages.now → Ascend (map (λ s. s.variable) stages.now) }
{}

/// Rows have no more than one elimination: one least vector of multipliers, one list of stages, one stage that leaves
/// 128 bits, or one that is too wide with one count. The rows of stages are told by their coefficients only where their
/// terms are canonical, as those of each `Row` are.
pub fn has_no_other_answer(rows: &[Row], answer: &Elim)
    ensures { IsElimination rows.now answer.now → HasCanonicalRows answer.now
        → (other : Elim) → IsElimination rows.now other → HasCanonicalRows other
        → other ≡ answer.now }
{}

//! Facts about walks that callers cite: each function does no work, and its clause is the fact.
ghost use Rattle.std.specs.Prelude.{◌≡◌};
ghost use Rattle.ps_walk.specs.Answer.{IsWalk};
ghost use Rattle.ps_walk.specs.declared.answer.Walk.{Walk};

use crate::answer::Walk;
use ps_elim::Stage;
use ps_term::Row;

/// Rows and stages have no more than one answer.
pub fn has_no_other_answer(rows: &[Row], stages: &[Stage], walk: &Walk)
    ensures { IsWalk rows.now stages.now walk.now → (other : Walk)
        → IsWalk rows.now stages.now other → other ≡ walk.now }
{}

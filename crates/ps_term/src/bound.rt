// How far a search in sorted pairs goes.
ghost use Rattle.std.specs.Prelude.{◌≡◌};
ghost use Rattle.ps_term.specs.inner.Bound.{is_within};

use crate::var::{Var, is_before};

// Which variables a search passes.
#[derive(Clone, Copy, Debug, PartialEq, Eq)]
pub(crate) enum Bound {
    // Those before this one.
    Before(Var),
    // Those up to this one, it included.
    UpTo(Var),
    // None.
    Nothing,
}

// Whether the variable is one that the search passes.
pub(crate) fn is_within(bound: Bound, variable: Var) -> bool
    ensures { result ≡ is_within bound variable }
{
    match bound {
        Bound::Before(end) => is_before(variable, end),
        Bound::UpTo(end) => !is_before(end, variable),
        Bound::Nothing => false,
    }
}

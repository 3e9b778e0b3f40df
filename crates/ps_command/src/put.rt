// Terms put for variables, as an exact term.
ghost use Rattle.std.specs.Prelude.{◌≡◌, IfOk, OnOk, IsErrOf};
ghost use Rattle.ps_term.specs.Exact.{substituted};
ghost use Rattle.ps_term.specs.Substitution.{SubstitutionFits};

use ps_term::{Term, TermEnd, Var, substitute};
use std::alloc::Global;

// The term with the terms of the list put for the variables that it names.
pub(crate) fn put_in(alloc: Global, after: &[(Var, Term)], term: &Term) -> Result<Term, TermEnd>
    ensures term { IfOk result (λ put. put ≡ substituted after.now term.now) }
    ensures fits { OnOk result (SubstitutionFits after.now term.now) }
    ensures past { IsErrOf result TermEnd.Past128 → ¬ SubstitutionFits after.now term.now }
{
    match substitute(alloc, term, after) {
        Ok(put) => Ok(put),
        Err(end) => Err(end),
    }
}

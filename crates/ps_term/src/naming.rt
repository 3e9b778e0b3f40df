// Which term a list of variables with terms gives for a variable.
ghost use Rattle.std.specs.Prelude.{◌≡◌, IsTrue, MatchOption};
ghost use Rattle.ps_term.specs.inner.Named.{AreRising};
ghost use Rattle.ps_term.specs.Substitution.{replacement};
ghost use Rattle.ps_term.specs.Term.{variable_term};
ghost use Rattle.ps_term.specs.Var.{var_lt};

use crate::term::Term;
use crate::var::{Var, is_before, is_same};

// Whether each variable of the list comes before the next, so that it can be searched.
pub(crate) fn ascends(after: &[(Var, Term)]) -> bool
    ensures { IsTrue result → AreRising after.now }
{
    for at in 1..after.len() {
        if !is_before(after[at - 1].0, after[at].0) {
            return false;
        }
    }
    true
}

// The term that the list gives for the variable, if it names it: by a binary search in a list that is
// known to ascend, and else by one pass over it.
pub(crate) fn replacing(after: &[(Var, Term)], rising: bool, variable: Var) -> Option<&Term>
    requires { IsTrue rising → AreRising after.now }
    ensures { MatchOption result (variable_term variable ≡ replacement after.now variable)
        (λ term. term.now ≡ replacement after.now variable) }
{
    if rising {
        searched(after, variable)
    } else {
        first_named(after, variable)
    }
}

fn first_named(after: &[(Var, Term)], variable: Var) -> Option<&Term>
    ensures { MatchOption result (variable_term variable ≡ replacement after.now variable)
        (λ term. term.now ≡ replacement after.now variable) }
{
    for pair in after {
        if is_same(variable, pair.0) {
            return Some(&pair.1);
        }
    }
    None
}

fn searched(after: &[(Var, Term)], variable: Var) -> Option<&Term>
    requires { AreRising after.now }
    ensures { MatchOption result (variable_term variable ≡ replacement after.now variable)
        (λ term. term.now ≡ replacement after.now variable) }
{
    let place = after.partition_point(
        |pair: &(Var, Term)| -> bool
            ensures { result ≡ var_lt pair.now.0 variable }
        { is_before(pair.0, variable) },
    );
    if place >= after.len() {
        return None;
    }
    if !is_same(variable, after[place].0) {
        return None;
    }
    Some(&after[place].1)
}

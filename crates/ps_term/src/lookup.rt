// Look-ups in sorted pairs, each by a search for a place.
ghost use Rattle.std.specs.Prelude.{◌≡◌, ◌≢◌, pos, Option, Some, IfSome};
ghost use Rattle.ps_term.specs.declared.var.Var.{Var};
ghost use Rattle.ps_term.specs.inner.Bound.{up_to};
ghost use Rattle.ps_term.specs.Lookup.{IsAfter, IsBefore};
ghost use Rattle.ps_term.specs.Pairs.{coefficient, IsCanonical};

use crate::bound::Bound;
use crate::front::{first_variable, in_front, tail};
use crate::place::place_of;
use crate::stop::Stop;
use crate::var::Var;

// The variable's coefficient, which is 0 where it doesn't stand.
pub(crate) fn coefficient_of(pairs: &[(Var, i128)], variable: Var) -> i128
    requires { IsCanonical pairs.now }
    ensures { result ≡ coefficient variable pairs.now }
{
    let place = place_of(pairs, Bound::Before(variable), 0);
    in_front(variable, tail(pairs, place))
}

// The first variable after the last one, or the first of all where there is no last one.
pub(crate) fn next_variable(pairs: &[(Var, i128)], last: Option<Var>, near: usize) -> Option<Var>
    requires { IsCanonical pairs.now }
    ensures skipped { (x : Var) → IsAfter last x → IsBefore x result
        → coefficient x pairs.now ≡ pos 0 }
    ensures stands { IfSome result (λ x. IsAfter last x × (coefficient x pairs.now ≢ pos 0)) }
{
    let place = place_of(pairs, up_to(last), near);
    first_variable(tail(pairs, place))
}

// What a walk over variables finds at this one, and the first one after it.
pub(crate) fn stop_at(pairs: &[(Var, i128)], variable: Var, near: usize) -> Stop
    requires { IsCanonical pairs.now }
    ensures coefficient { result.coefficient ≡ coefficient variable pairs.now }
    ensures skipped { (x : Var) → IsAfter (Some variable) x → IsBefore x result.next
        → coefficient x pairs.now ≡ pos 0 }
    ensures stands { IfSome result.next
        (λ x. IsAfter (Some variable) x × (coefficient x pairs.now ≢ pos 0)) }
{
    let place = place_of(pairs, Bound::Before(variable), near);
    Stop {
        coefficient: in_front(variable, tail(pairs, place)),
        next: next_variable(pairs, Some(variable), place),
        place,
    }
}

// The bound that passes the variables up to the last one, if there is one.
fn up_to(last: Option<Var>) -> Bound
    ensures { result ≡ up_to last }
{
    match last {
        None => Bound::Nothing,
        Some(end) => Bound::UpTo(end),
    }
}

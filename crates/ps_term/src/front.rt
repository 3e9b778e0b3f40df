// The front of lists of pairs.
ghost use Rattle.std.specs.Prelude.{◌≡◌, ◌≤◌, drop, length};
ghost use Rattle.ps_term.specs.inner.Front.{after_front, first_variable, front_coefficient};

use crate::var::{Var, is_same};

pub(crate) fn first_variable(pairs: &[(Var, i128)]) -> Option<Var>
    ensures { result ≡ first_variable pairs.now }
{
    match pairs.first() {
        Some(pair) => Some(pair.0),
        None => None,
    }
}

// What is left after so many pairs.
pub(crate) fn tail(pairs: &[(Var, i128)], count: usize) -> &[(Var, i128)]
    requires { count ≤ length pairs.now }
    ensures { result.now ≡ drop count pairs.now }
{
    &pairs[count..]
}

// The first coefficient if it is the variable's, or else 0.
pub(crate) fn in_front(variable: Var, pairs: &[(Var, i128)]) -> i128
    ensures { result ≡ front_coefficient variable pairs.now }
{
    match pairs.first() {
        Some(pair) if is_same(variable, pair.0) => pair.1,
        _ => 0,
    }
}

// The list without its first pair, if that is the variable's.
pub(crate) fn past_front(variable: Var, pairs: &[(Var, i128)]) -> &[(Var, i128)]
    ensures { result.now ≡ after_front variable pairs.now }
{
    match pairs {
        [pair, rest @ ..] if is_same(variable, pair.0) => rest,
        _ => pairs,
    }
}

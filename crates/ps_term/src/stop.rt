//! What a walk over the variables of several terms finds in one of them.

use crate::var::Var;

/// A stop of a walk at one variable.
#[derive(Clone, Copy, Debug, PartialEq, Eq)]
pub struct Stop {
    /// The variable's coefficient, which is 0 where it doesn't stand.
    pub coefficient: i128,
    /// The first variable after it.
    pub next: Option<Var>,
    /// Where it was looked up: a good guess for the next stop, and for terms of like variables.
    pub place: usize,
}

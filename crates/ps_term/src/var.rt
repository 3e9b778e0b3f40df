//! The variables that terms speak of, with their order.
ghost use Rattle.std.specs.Prelude.{◌≡◌};
ghost use Rattle.ps_term.specs.Var.{var_eq, var_lt};

use ps_list::Duplicate;
use std::alloc::{AllocError, Global};

/// A variable. Globals come before locals and those before havocs; within a kind the numbers decide,
/// of two locals first that of the thread.
#[derive(Clone, Copy, Debug, PartialEq, Eq, PartialOrd, Ord, Hash)]
pub enum Var {
    /// The global variable of this number.
    Global(u32),
    /// Of the thread or slot with the first number, the local variable of the second.
    Local(u32, u32),
    /// The value that the havoc of this number chose.
    Havoc(u32),
}

/// Whether the two are one variable.
pub fn is_same(a: Var, b: Var) -> bool
    ensures { result ≡ var_eq a b }
{
    a == b
}

/// Whether `a` comes before `b`.
pub fn is_before(a: Var, b: Var) -> bool
    ensures { result ≡ var_lt a b }
{
    a < b
}

impl Duplicate for Var {
    fn duplicate(&self, _alloc: Global) -> Result<Var, AllocError> {
        Ok(*self)
    }
}

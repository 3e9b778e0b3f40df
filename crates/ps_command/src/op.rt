//! The ops that commands are made of.
ghost use Rattle.std.specs.Prelude.{◌≡◌, IfOk};

use ps_list::Duplicate;
use ps_term::{Row, Term, Var};
use std::alloc::{AllocError, Global};

/// One op of a command. `Local(0, n)` is local n of the thread that runs it.
#[derive(Debug, Drop)]
pub enum Op {
    /// Goes on only where the row holds.
    Assume(Row),
    /// Sets the variable to what the term is worth.
    Assign(Var, Term),
    /// Sets the variable to the next havoc value.
    Havoc(Var),
}

impl Op {
    /// A copy, in time and memory of the number of pairs.
    pub fn copy(&self, alloc: Global) -> Result<Op, AllocError>
        ensures { IfOk result (λ op. op ≡ self.now) }
    {
        match self {
            Op::Assume(row) => Ok(Op::Assume(row.copy(alloc)?)),
            Op::Assign(variable, term) => Ok(Op::Assign(*variable, term.copy(alloc)?)),
            Op::Havoc(variable) => Ok(Op::Havoc(*variable)),
        }
    }
}

impl Duplicate for Op {
    fn duplicate(&self, alloc: Global) -> Result<Op, AllocError> {
        self.copy(alloc)
    }
}

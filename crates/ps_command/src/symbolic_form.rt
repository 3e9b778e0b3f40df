//! Symbolic forms of commands.
ghost use Rattle.std.specs.Prelude.{◌≡◌, IfOk};

use crate::assignments::Assignments;
use ps_list::{Duplicate, Sequence};
use ps_term::Row;
use std::alloc::{AllocError, Global};

/// What a command does, over the values before it and `Havoc(i)` for its i-th havoc: it runs where the
/// rows hold, and then the variables of `after` are worth their terms, and no other changes.
#[derive(Debug, Drop)]
pub struct SymbolicForm {
    pub rows: Sequence<Row>,
    pub after: Assignments,
    pub havocs: u32,
}

impl SymbolicForm {
    /// A copy, in time and memory of its rows and terms.
    pub fn copy(&self, alloc: Global) -> Result<SymbolicForm, AllocError>
        ensures { IfOk result (λ form. form ≡ self.now) }
    {
        Ok(SymbolicForm {
            rows: self.rows.copy(alloc)?,
            after: self.after.copy(alloc)?,
            havocs: self.havocs,
        })
    }
}

impl Duplicate for SymbolicForm {
    fn duplicate(&self, alloc: Global) -> Result<SymbolicForm, AllocError> {
        self.copy(alloc)
    }
}

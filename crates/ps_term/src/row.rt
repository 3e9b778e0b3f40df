//! Rows: conditions that a term is at most 0.
ghost use Rattle.std.specs.Prelude.{◌≡◌, IfOk};

use crate::term::Term;
use ps_list::Duplicate;
use std::alloc::{AllocError, Global};

/// Reads `term <= 0`.
#[derive(Debug, Drop)]
pub struct Row {
    pub term: Term,
}

impl Row {
    /// A copy, in time and memory of the number of pairs.
    pub fn copy(&self, alloc: Global) -> Result<Row, AllocError>
        ensures { IfOk result (λ row. row ≡ self.now) }
    {
        Ok(Row {
            term: self.term.copy(alloc)?,
        })
    }
}

impl Duplicate for Row {
    fn duplicate(&self, alloc: Global) -> Result<Row, AllocError> {
        self.copy(alloc)
    }
}

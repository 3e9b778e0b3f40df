//! Stages of an elimination.
ghost use Rattle.std.specs.Prelude.{◌≡◌, IfOk};

use crate::vector::Vector;
use ps_list::{Duplicate, Sequence};
use ps_term::{Row, Var};
use std::alloc::{AllocError, Global};

/// The set of vectors just before its variable is eliminated, each with the row that it makes.
#[derive(Debug, Drop)]
pub struct Stage {
    pub variable: Var,
    /// Vectors of multipliers, one entry for each of the given rows.
    pub vectors: Sequence<Vector>,
    /// For each vector the sum of the given rows, weighted by its entries.
    pub rows: Sequence<Row>,
}

impl Stage {
    /// A copy, in time and memory of all its vectors and rows.
    pub fn copy(&self, alloc: Global) -> Result<Stage, AllocError>
        ensures { IfOk result (λ stage. stage ≡ self.now) }
    {
        Ok(Stage {
            variable: self.variable,
            vectors: self.vectors.copy(alloc)?,
            rows: self.rows.copy(alloc)?,
        })
    }
}

impl Duplicate for Stage {
    fn duplicate(&self, alloc: Global) -> Result<Stage, AllocError> {
        self.copy(alloc)
    }
}

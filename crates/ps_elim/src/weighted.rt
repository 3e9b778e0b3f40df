// Vectors with the rows that they make.
ghost use Rattle.std.specs.Prelude.{◌≡◌, IfOk};

use crate::support::Support;
use crate::vector::Vector;
use ps_term::Row;
use std::alloc::{AllocError, Global};

// A vector of multipliers, one for each of the given rows, with their weighted sum and the places at
// which the vector isn't 0.
#[derive(Debug, Drop)]
pub(crate) struct Weighted {
    pub(crate) vector: Vector,
    pub(crate) row: Row,
    pub(crate) support: Support,
}

impl Weighted {
    pub(crate) fn copy(&self, alloc: Global) -> Result<Weighted, AllocError>
        ensures { IfOk result (λ copy. copy ≡ self.now) }
    {
        Ok(Weighted {
            vector: self.vector.copy(alloc)?,
            row: self.row.copy(alloc)?,
            support: self.support.copy(alloc)?,
        })
    }
}

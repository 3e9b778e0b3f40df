//! Rows with their multipliers.

ghost use Rattle.std.specs.Prelude.{◌≡◌, IfOk};

use ps_list::Sequence;
use ps_term::Row;
use std::alloc::{AllocError, Global};

/// Rows, and the multipliers under which their sum is to be a positive constant.
#[derive(Debug, Drop)]
pub struct Claim {
    pub rows: Sequence<Row>,
    pub multipliers: Sequence<u128>,
}

impl Claim {
    /// A copy, in time and memory of the rows' pairs and the multipliers.
    pub fn copy(&self, alloc: Global) -> Result<Claim, AllocError>
        ensures { IfOk result (λ claim. claim ≡ self.now) }
    {
        Ok(Claim {
            rows: self.rows.copy(alloc)?,
            multipliers: self.multipliers.copy(alloc)?,
        })
    }
}

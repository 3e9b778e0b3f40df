//! Witnesses.
ghost use Rattle.std.specs.Prelude.{◌≡◌, IfOk};

use crate::steps::Steps;
use ps_list::Sequence;
use std::alloc::{AllocError, Global};

/// Values to start from, of each global and for each thread of each of its locals, and steps.
#[derive(Debug, Drop)]
pub struct Witness {
    pub globals: Sequence<i128>,
    pub locals: Sequence<Sequence<i128>>,
    pub steps: Steps,
}

impl Witness {
    /// A copy, in time and memory of all that stands in it.
    pub fn copy(&self, alloc: Global) -> Result<Witness, AllocError>
        ensures { IfOk result (λ witness. witness ≡ self.now) }
    {
        Ok(Witness {
            globals: self.globals.copy(alloc)?,
            locals: self.locals.copy(alloc)?,
            steps: self.steps.copy(alloc)?,
        })
    }
}

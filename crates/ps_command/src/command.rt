//! Commands.
ghost use Rattle.std.specs.Prelude.{◌≡◌, IfOk};

use crate::op::Op;
use ps_list::{Duplicate, Sequence};
use std::alloc::{AllocError, Global};

/// Ops that one thread runs one after another, in one step.
#[derive(Debug, Drop)]
pub struct Command {
    pub ops: Sequence<Op>,
}

impl Command {
    /// A copy, in time and memory of its ops.
    pub fn copy(&self, alloc: Global) -> Result<Command, AllocError>
        ensures { IfOk result (λ command. command ≡ self.now) }
    {
        Ok(Command {
            ops: self.ops.copy(alloc)?,
        })
    }
}

impl Duplicate for Command {
    fn duplicate(&self, alloc: Global) -> Result<Command, AllocError> {
        self.copy(alloc)
    }
}

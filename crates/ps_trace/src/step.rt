//! Steps of a witness.
ghost use Rattle.std.specs.Prelude.{◌≡◌, IfOk};

use ps_list::Sequence;
use std::alloc::{AllocError, Global};

/// A thread makes a step with these choices, in the order met: 1 or 0 for each `*`, and the value for
/// each havoc.
#[derive(Debug, Drop)]
pub struct Step {
    pub thread: u32,
    pub choices: Sequence<i128>,
}

impl Step {
    /// A copy, in time and memory of the number of choices.
    pub fn copy(&self, alloc: Global) -> Result<Step, AllocError>
        ensures { IfOk result (λ step. step ≡ self.now) }
    {
        Ok(Step {
            thread: self.thread,
            choices: Sequence::from_slice(alloc, self.choices.as_slice())?,
        })
    }
}

//! States.
ghost use Rattle.std.specs.Prelude.{◌≡◌, IfOk};

use ps_list::Sequence;
use std::alloc::{AllocError, Global};

/// The value of each global, and for each thread that of each of its locals.
#[derive(Debug, Drop)]
pub struct State {
    pub globals: Sequence<i128>,
    pub locals: Sequence<Sequence<i128>>,
}

impl State {
    /// A copy, in time and memory of the number of values.
    pub fn copy(&self, alloc: Global) -> Result<State, AllocError>
        ensures { IfOk result (λ state. state ≡ self.now) }
    {
        Ok(State {
            globals: self.globals.copy(alloc)?,
            locals: self.locals.copy(alloc)?,
        })
    }
}

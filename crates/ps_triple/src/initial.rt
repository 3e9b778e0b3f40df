//! Predicates that hold initially.
ghost use Rattle.std.specs.Prelude.{◌≡◌, IfOk};

use ps_list::Sequence;
use std::alloc::{AllocError, Global};

/// The predicate of this number holds in every initial state, of any threads. The multipliers show it: one for each of
/// the entry's rows.
#[derive(Debug, Drop)]
pub struct Initial {
    pub predicate: u32,
    pub lambda: Sequence<u128>,
}

impl Initial {
    /// A copy, in time and memory of its multipliers.
    pub fn copy(&self, alloc: Global) -> Result<Initial, AllocError>
        ensures { IfOk result (λ initial. initial ≡ self.now) }
    {
        Ok(Initial {
            predicate: self.predicate,
            lambda: self.lambda.copy(alloc)?,
        })
    }
}

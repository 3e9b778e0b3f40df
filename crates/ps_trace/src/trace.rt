//! Traces.
ghost use Rattle.std.specs.Prelude.{◌≡◌, IfOk};

use ps_list::Sequence;
use std::alloc::{AllocError, Global};

/// A thread that takes an edge, both by number.
#[derive(Clone, Copy, Debug, PartialEq, Eq)]
pub struct Letter {
    pub thread: u32,
    pub edge: u32,
}

/// The edges that threads take one after another.
#[derive(Debug, Drop)]
pub struct IndexedTrace {
    pub letters: Sequence<Letter>,
}

impl IndexedTrace {
    /// A copy, in time and memory of the number of letters.
    pub fn copy(&self, alloc: Global) -> Result<IndexedTrace, AllocError>
        ensures { IfOk result (λ trace. trace ≡ self.now) }
    {
        Ok(IndexedTrace {
            letters: Sequence::from_slice(alloc, self.letters.as_slice())?,
        })
    }
}

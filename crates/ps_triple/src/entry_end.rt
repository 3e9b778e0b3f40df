//! Why an entry isn't accepted.

use std::alloc::AllocError;
use thiserror::Error;

/// What is wrong with an entry. Of several faults the first in this order is given.
#[derive(Clone, Copy, Debug, PartialEq, Eq, Error)]
pub enum EntryFault {
    /// A predicate or the command isn't there, a predicate isn't in range, or an atom hasn't as many threads as its
    /// predicate has slots.
    #[error("a number names nothing")]
    BadNumber,
    /// An atom has a thread twice.
    #[error("a thread stands twice in an atom")]
    ThreadTwice,
    /// A thread before the command is neither thread 0 nor one of those after it.
    #[error("a thread before the command is free")]
    FreeThread,
    /// There are not as many multipliers as rows.
    #[error("{found} multipliers for {rows} rows")]
    Length { found: u32, rows: u64 },
    /// A product or a sum in the making of the rows, or in their weighted sum, lies outside `i128`.
    #[error("a value is past 128 bits")]
    Past128,
    /// The weighted sum of the rows isn't a constant of at least 1.
    #[error("the sum is no positive constant")]
    Sum,
}

/// Why an entry wasn't found to hold.
#[derive(Debug, Drop, Error)]
pub enum EntryEnd {
    /// It doesn't hold.
    #[error("{0}")]
    Fault(EntryFault),
    /// No memory was left.
    #[error("out of memory")]
    Memory(AllocError),
}

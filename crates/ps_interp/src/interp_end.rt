//! Why a refuted trace gives no entries.

use std::alloc::AllocError;
use thiserror::Error;

/// What ended the making of entries. What comes first in the order of their making is given.
#[derive(Debug, Drop, Error)]
pub enum InterpEnd {
    /// More than 4 threads occur in the interpolant at this cut.
    #[error("{count} threads occur in the interpolant at cut {cut}, more than 4")]
    Arity { cut: u32, count: u32 },
    /// The predicate of the interpolant at this cut would be the 129th.
    #[error("there is no room for the predicate of the interpolant at cut {cut}")]
    Predicates { cut: u32 },
    /// A product or a sum lies outside `i128`.
    #[error("a value is past 128 bits")]
    Past128,
    /// No memory was left.
    #[error("out of memory")]
    Memory(AllocError),
}

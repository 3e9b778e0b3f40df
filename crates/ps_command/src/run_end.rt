//! Why a run has no answer.

use std::alloc::AllocError;
use thiserror::Error;

/// Why nothing is known of a run.
#[derive(Debug, Drop, Error)]
pub enum RunEnd {
    /// A value lies outside `i128`, before an assume fails.
    #[error("a value is past 128 bits")]
    Past128,
    /// No memory was left.
    #[error("out of memory")]
    Memory(AllocError),
}

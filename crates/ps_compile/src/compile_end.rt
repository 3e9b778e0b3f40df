//! Why a program has no graph.

use ps_token::Place;
use ps_tree::LimitName;
use std::alloc::AllocError;
use thiserror::Error;

/// Why no graph was made.
#[derive(Debug, Drop, Error)]
pub enum CompileEnd {
    /// A limit is exceeded at this place of the text, and none before it.
    #[error("a limit is exceeded")]
    Limit(Place, LimitName),
    /// No memory was left.
    #[error("out of memory")]
    Memory(AllocError),
}

//! Why words give no mode.
use std::alloc::AllocError;
use thiserror::Error;

/// Why words give no mode.
#[derive(Debug, Drop, Error)]
pub enum WordsEnd {
    /// They aren't words of the command line.
    #[error("not words of the command line")]
    Refused,
    /// Want of memory.
    #[error("out of memory")]
    Memory(AllocError),
}

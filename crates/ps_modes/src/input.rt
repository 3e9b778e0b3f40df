//! The limit of every input.

/// How many bytes an input may have.
pub const MOST_BYTES: usize = 300_000_000;

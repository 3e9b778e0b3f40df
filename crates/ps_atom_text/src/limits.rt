//! Limits of atoms. Definitions and code cite them.

/// The greatest number of a thread of a configuration.
pub const MOST_THREAD: u32 = 63;

/// The greatest number of a thread of an entry: any of 32 bits.
pub const ANY_THREAD: u32 = u32::MAX;

/// The most atoms before a command.
pub const MOST_BEFORE: usize = 8;

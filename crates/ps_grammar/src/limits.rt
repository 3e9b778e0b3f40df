//! The limits of a program text. Definitions and code cite them; each stands here once.

/// The most globals.
pub const MOST_GLOBALS: usize = 16;

/// The most locals.
pub const MOST_LOCALS: usize = 8;

/// The most rows that hold at the start.
pub const MOST_ROWS: u64 = 64;

/// The most levels of `{`, `(` and `!`.
pub const MOST_LEVELS: u32 = 64;

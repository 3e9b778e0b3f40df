//! The limits of a program's graph. Clauses cite them; each stands here once.

/// The most control locations.
pub const MOST_LOCATIONS: usize = 256;

/// The most edges.
pub const MOST_EDGES: usize = 512;

/// The most alternatives of a condition, and of its negation.
pub const MOST_ALTERNATIVES: usize = 16;

/// The most paths of an atomic block.
pub const MOST_PATHS: usize = 64;

/// The most rows that a command assumes.
pub const MOST_ROWS: usize = 64;

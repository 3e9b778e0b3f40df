//! The limit of a list of entries. Clauses cite it; it stands here once.

/// The most entries of a basis.
pub const MOST_ENTRIES: usize = 16384;

//! Limits of proofs that are read. Definitions and code cite them.

/// How many predicates a proof may list.
pub const MOST_PREDICATES: u32 = 127;

/// How many entries a proof may list.
pub const MOST_ENTRIES: u32 = 16_384;

/// How many configurations a proof may list.
pub const MOST_CONFIGS: u32 = 65_536;

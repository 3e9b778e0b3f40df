//! The greatest number of a variable that has a spelling. Definitions and code cite it.

/// The greatest number of a global or a local, and of a thread or a slot.
pub const MOST_NUMBER: u32 = 65_535;

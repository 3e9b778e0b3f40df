// Limits of an elimination, which code and clauses share.

// Of how many vectors a set is made at most.
pub(crate) const MOST_VECTORS: u64 = 2048;
// So many pairs of the given rows are too many.
pub(crate) const TOO_MANY_PAIRS: usize = 1 << 32;

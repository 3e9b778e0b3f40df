//! The limits of a search.

/// How much a search may make, and by how many workers.
#[derive(Clone, Copy)]
pub struct Limits {
    /// The most nodes beside the start.
    pub nodes: u32,
    /// The most traces that are recorded.
    pub traces: u32,
    /// The most atoms of a condition that a question asks for.
    pub width: u32,
    /// The workers that prefer nodes.
    pub explorers: u32,
    /// The workers that prefer traces.
    pub provers: u32,
}

//! A node and another that it names.

/// Says of `node` that it names `other`: as its parent, or as the node that it links to.
#[derive(Clone, Copy, Debug, PartialEq, Eq)]
pub struct Pair {
    pub node: u64,
    pub other: u64,
}

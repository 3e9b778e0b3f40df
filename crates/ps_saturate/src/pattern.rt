//! Patterns of a post.

/// Which slot of a post the thread has that runs the command.
#[derive(Clone, Copy, Debug, PartialEq, Eq)]
pub enum Pattern {
    /// The post has no slot.
    None,
    /// This slot of the post is the thread's.
    Mover(u32),
    /// The post has slots, and none of them is the thread's.
    Other,
}

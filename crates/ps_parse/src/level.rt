//! Levels that are open in a program text.

/// A level that is open.
#[derive(Clone, Copy)]
pub(crate) enum Level {
    /// A block.
    Block,
    /// A block of `atomic`.
    AtomicBlock,
    /// A parenthesis.
    Parens,
    /// A `!` whose operand isn't whole.
    Negation,
}

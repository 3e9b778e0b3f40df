//! Questions.

use crate::pattern::Pattern;

/// Which sets of atoms of the first `now` predicates lead, before the command, to the post after it? False is left out, and
/// so are the sets that were asked for when there were `old` predicates. At `old` 0 nothing was asked for yet, so the empty
/// set is asked for too.
#[derive(Clone, Copy, Debug, PartialEq, Eq)]
pub struct Question {
    /// The number of the post's predicate.
    pub post: u32,
    pub command: u32,
    pub pattern: Pattern,
    pub old: u32,
    pub now: u32,
}

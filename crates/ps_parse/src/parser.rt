//! What every part of the parser knows.

use crate::declared::Declared;
use std::alloc::Global;

/// Reads parts of a program from the words of its text, with the names that were declared before. A call is told a number
/// that is more than the words that are left: no more parts are repeated or stand in one another.
#[derive(Drop)]
pub(crate) struct Parser<'a> {
    pub(crate) alloc: Global,
    pub(crate) declared: &'a Declared,
}

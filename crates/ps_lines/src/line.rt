//! Lines of a text.

ghost use Rattle.std.specs.Prelude.{◌≡◌, IfOk};

use crate::spans::Spans;
use std::alloc::{AllocError, Global};

/// An ended line of a text.
#[derive(Debug, Drop)]
pub struct Line {
    pub number: u32,
    /// Where its fields stand in the text.
    pub fields: Spans,
}

impl Line {
    /// A copy, in time and memory of the number of fields.
    pub fn copy(&self, alloc: Global) -> Result<Line, AllocError>
        ensures { IfOk result (λ line. line ≡ self.now) }
    {
        Ok(Line {
            number: self.number,
            fields: self.fields.copy(alloc)?,
        })
    }
}

//! Relations between two sums.
ghost use Rattle.std.specs.Prelude.{◌≡◌, IfOk};

use crate::sum::Sum;
use std::alloc::{AllocError, Global};

/// How two sums are compared.
#[derive(Clone, Copy, Debug, PartialEq, Eq)]
pub enum Sign {
    Less,
    LessEq,
    Greater,
    GreaterEq,
    Equal,
    NotEqual,
}

/// The left sum compared with the right one.
#[derive(Debug, Drop)]
pub struct Relation {
    pub left: Sum,
    pub sign: Sign,
    pub right: Sum,
}

impl Relation {
    /// A copy, in time and memory of the two sums.
    pub fn copy(&self, alloc: Global) -> Result<Relation, AllocError>
        ensures { IfOk result (λ relation. relation ≡ self.now) }
    {
        Ok(Relation {
            left: self.left.copy(alloc)?,
            sign: self.sign,
            right: self.right.copy(alloc)?,
        })
    }
}

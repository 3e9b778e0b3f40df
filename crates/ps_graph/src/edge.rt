//! Edges.
ghost use Rattle.std.specs.Prelude.{◌≡◌, IfOk};

use ps_list::{Duplicate, Sequence};
use std::alloc::{AllocError, Global};

/// What an edge does with one choice of a step.
#[derive(Clone, Copy, Debug, PartialEq, Eq)]
pub enum Pick {
    /// The choice of a `*`: 1 where it is true, and 0 where it is false.
    Star(bool),
    /// The value of the next havoc.
    Value,
}

/// An edge from one control location to another: a step along it runs the command of this number, with
/// choices that fit the picks.
#[derive(Debug, Drop)]
pub struct Edge {
    pub source: u32,
    pub target: u32,
    pub command: u32,
    pub picks: Sequence<Pick>,
}

impl Edge {
    /// A copy, in time and memory of its picks.
    pub fn copy(&self, alloc: Global) -> Result<Edge, AllocError>
        ensures { IfOk result (λ edge. edge ≡ self.now) }
    {
        Ok(Edge {
            source: self.source,
            target: self.target,
            command: self.command,
            picks: Sequence::from_slice(alloc, self.picks.as_slice())?,
        })
    }
}

impl Duplicate for Edge {
    fn duplicate(&self, alloc: Global) -> Result<Edge, AllocError> {
        self.copy(alloc)
    }
}

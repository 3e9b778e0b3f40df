//! The answer to a search for minimal hitting sets.
ghost use Rattle.std.specs.Prelude.{◌≡◌, IfOk};

use ps_list::Sequence;
use std::alloc::{AllocError, Global};

/// The minimal hitting sets of some sets, or that there are more than were asked for.
#[derive(Debug, Drop)]
pub enum Hits {
    All(Sequence<Sequence<u32>>),
    TooMany,
}

impl Hits {
    pub fn copy(&self, alloc: Global) -> Result<Self, AllocError>
        ensures { IfOk result (λ copy. copy ≡ self.now) }
    {
        match self {
            Hits::All(sets) => Ok(Hits::All(sets.copy(alloc)?)),
            Hits::TooMany => Ok(Hits::TooMany),
        }
    }
}

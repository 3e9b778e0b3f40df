//! What a refuted trace gives.
ghost use Rattle.std.specs.Prelude.{◌≡◌, IfOk};

use ps_atom::Predicate;
use ps_list::Sequence;
use ps_trace::IndexedTrace;
use ps_triple::Entry;
use std::alloc::{AllocError, Global};

/// The entries that prove a trace, and the predicates that they name beyond those that were known.
#[derive(Debug, Drop)]
pub struct Refutation {
    pub trace: IndexedTrace,
    /// How many predicates were known; the new ones are numbered from this number on.
    pub known: u32,
    pub predicates: Sequence<Predicate>,
    pub entries: Sequence<Entry>,
}

impl Refutation {
    /// A copy, in time and memory of all that stands in it.
    pub fn copy(&self, alloc: Global) -> Result<Refutation, AllocError>
        ensures { IfOk result (λ refutation. refutation ≡ self.now) }
    {
        Ok(Refutation {
            trace: self.trace.copy(alloc)?,
            known: self.known,
            predicates: self.predicates.copy(alloc)?,
            entries: self.entries.copy(alloc)?,
        })
    }
}

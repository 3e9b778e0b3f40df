//! Atoms: predicates of threads.
ghost use Rattle.std.specs.Prelude.{◌≡◌, IfOk};
ghost use Rattle.ps_atom.specs.Atoms.{atom_cmp};

use crate::threads::Threads;
use ps_list::Duplicate;
use std::alloc::{AllocError, Global};
use std::cmp::Ordering;

/// The predicate of this number, with the thread that stands in each of its slots.
#[derive(Debug, Drop)]
pub struct Atom {
    pub predicate: u32,
    pub threads: Threads,
}

impl Atom {
    /// The order of atoms: by predicate, then by threads, where the first that differ decide, and a list
    /// that the other begins with comes first. In time of the shorter list.
    pub fn compare(&self, other: &Atom) -> Ordering
        ensures { result ≡ atom_cmp self.now other.now }
    {
        let by_threads = self.threads.as_slice().cmp(other.threads.as_slice());
        self.predicate.cmp(&other.predicate).then(by_threads)
    }

    /// A copy, in time of the number of threads. It takes memory only where there are more than 4.
    pub fn copy(&self, alloc: Global) -> Result<Atom, AllocError>
        ensures { IfOk result (λ atom. atom ≡ self.now) }
    {
        Ok(Atom {
            predicate: self.predicate,
            threads: self.threads.copy(alloc)?,
        })
    }
}

impl Duplicate for Atom {
    fn duplicate(&self, alloc: Global) -> Result<Atom, AllocError> {
        self.copy(alloc)
    }
}

//! Entries.
ghost use Rattle.std.specs.Prelude.{◌≡◌, IfOk};
ghost use Rattle.ps_triple.specs.Fits.{lambda_of};

use crate::initial::Initial;
use crate::triple::Triple;
use ps_list::Duplicate;
use std::alloc::{AllocError, Global};

/// A triple, or a predicate that holds initially.
#[derive(Debug, Drop)]
pub enum Entry {
    Triple(Triple),
    Initial(Initial),
}

impl Entry {
    // The multipliers.
    pub(crate) fn lambda(&self) -> &[u128]
        ensures { result.now ≡ lambda_of self.now }
    {
        match self {
            Entry::Triple(triple) => triple.lambda.as_slice(),
            Entry::Initial(initial) => initial.lambda.as_slice(),
        }
    }

    /// A copy, in time and memory of its atoms and multipliers.
    pub fn copy(&self, alloc: Global) -> Result<Entry, AllocError>
        ensures { IfOk result (λ entry. entry ≡ self.now) }
    {
        match self {
            Entry::Triple(triple) => Ok(Entry::Triple(triple.copy(alloc)?)),
            Entry::Initial(initial) => Ok(Entry::Initial(initial.copy(alloc)?)),
        }
    }
}

impl Duplicate for Entry {
    fn duplicate(&self, alloc: Global) -> Result<Entry, AllocError> {
        self.copy(alloc)
    }
}

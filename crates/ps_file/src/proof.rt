//! Proofs.
ghost use Rattle.std.specs.Prelude.{◌≡◌, IfOk};

use ps_atom::Predicate;
use ps_config::Config;
use ps_list::Sequence;
use ps_triple::Entry;
use std::alloc::{AllocError, Global};

/// What shows that a program never fails: predicates, of which the first listed one has number 1, entries about them,
/// and configurations that together cover every step back.
#[derive(Drop)]
pub struct Proof {
    /// The predicates from number 1 on. Number 0 is the predicate that is false, which isn't listed.
    pub predicates: Sequence<Predicate>,
    pub entries: Sequence<Entry>,
    pub configs: Sequence<Config>,
}

impl Proof {
    /// A copy, in time and memory of what the proof holds.
    pub fn copy(&self, alloc: Global) -> Result<Proof, AllocError>
        ensures { IfOk result (λ proof. proof ≡ self.now) }
    {
        Ok(Proof {
            predicates: self.predicates.copy(alloc)?,
            entries: self.entries.copy(alloc)?,
            configs: self.configs.copy(alloc)?,
        })
    }
}

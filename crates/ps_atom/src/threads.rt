//! The threads in the slots of a predicate.
ghost use Rattle.std.specs.Prelude.{◌≡◌, ◌<◌, ◌≤◌, ◌++◌, ◌∷◌, [], IfOk, IsOk, OnErr, OnOk, length};

use ps_list::Duplicate;
use smallvec::SmallVec;
use std::alloc::{AllocError, Global};
use std::marker::Model;

/// The threads in the slots of a predicate, which contracts see as their list. Up to 4 of them, the
/// greatest arity in range, are held in the value itself; only more take memory.
#[derive(Debug, Drop)]
pub struct Threads {
    numbers: SmallVec<u32, 4>,
}

impl Model for Threads {
    ghost use Rattle.std.specs.Prelude.{List, ℕ, ◌≤◌};

    ghost Value = { List ℕ };

    ghost view = { λ t. t.numbers.items };

    ghost invariant = { λ t. 4 ≤ t.numbers.capacity };
}

impl Threads {
    /// No threads; the call needs no memory.
    pub fn new(alloc: Global) -> Threads
        ensures { result ≡ [] }
    {
        Threads {
            numbers: SmallVec::new(alloc),
        }
    }

    /// These threads. It takes memory only where there are more than 4.
    pub fn from_slice(alloc: Global, threads: &[u32]) -> Result<Threads, AllocError>
        ensures copy { IfOk result (λ copy. copy ≡ threads.now) }
        ensures inline { length threads.now ≤ 4 → IsOk result }
    {
        let mut copy = Threads::new(alloc);
        copy.numbers.extend_from_slice(threads)?;
        Ok(copy)
    }

    /// Appends a thread. It takes memory only where there are 4 or more.
    pub fn push(&mut self, thread: u32) -> Result<(), AllocError>
        ensures pushed { OnOk result (self.new ≡ self.old ++ thread ∷ []) }
        ensures unchanged { OnErr result (self.new ≡ self.old) }
        ensures inline { length self.old < 4 → IsOk result }
    {
        self.numbers.push(thread)?;
        Ok(())
    }

    pub fn as_slice(&self) -> &[u32]
        ensures { result.now ≡ self.now }
    {
        self.numbers.as_slice()
    }

    /// A copy. It takes memory only where there are more than 4 threads.
    pub fn copy(&self, alloc: Global) -> Result<Threads, AllocError>
        ensures copy { IfOk result (λ copy. copy ≡ self.now) }
        ensures inline { length self.now ≤ 4 → IsOk result }
    {
        Threads::from_slice(alloc, self.numbers.as_slice())
    }
}

impl Duplicate for Threads {
    fn duplicate(&self, alloc: Global) -> Result<Threads, AllocError> {
        self.copy(alloc)
    }
}

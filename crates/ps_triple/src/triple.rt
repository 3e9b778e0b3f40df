//! Triples.
ghost use Rattle.std.specs.Prelude.{◌≡◌, IfOk, IsTrue};
ghost use Rattle.ps_triple.specs.Ascending.{ascend};

use ps_atom::Atom;
use ps_list::Sequence;
use std::alloc::{AllocError, Global};

/// From states in which the atoms before hold, the command, run by thread 0, leads to states in which the atom after
/// holds. The multipliers show it: one for each of the triple's rows.
#[derive(Debug, Drop)]
pub struct Triple {
    /// The atoms before, which strictly ascend.
    pub pre: Sequence<Atom>,
    pub command: u32,
    /// The atom after.
    pub post: Atom,
    pub lambda: Sequence<u128>,
    pub ghost ascends: { IsTrue (ascend pre) },
}

impl Triple {
    /// A copy, in time and memory of its atoms and multipliers.
    pub fn copy(&self, alloc: Global) -> Result<Triple, AllocError>
        ensures { IfOk result (λ triple. triple ≡ self.now) }
    {
        Ok(Triple {
            pre: self.pre.copy(alloc)?,
            command: self.command,
            post: self.post.copy(alloc)?,
            lambda: self.lambda.copy(alloc)?,
        })
    }
}

//! Entries as lists that are asked.
ghost use Rattle.std.specs.Prelude.{IsTrue};
ghost use Rattle.ps_demand.specs.Demands.{AreTied};
ghost use Rattle.ps_triple.specs.Tests.{HasNoFreeThread, IsTiedTo};

use ps_atom::Atom;
use ps_basis::{Front, MOST_ENTRIES};
use ps_triple::Entry;
use std::alloc::{AllocError, Global};

/// The entries as they are, where they aren't too many.
pub fn front_of(alloc: Global, entries: Vec<Entry>) -> Result<Front, AllocError> {
    if entries.len() > MOST_ENTRIES {
        return Err(AllocError);
    }
    Front::indexed(alloc, entries)
}

/// Whether no triple has a free thread.
pub fn are_tied(entries: &[Entry]) -> bool
    ensures { IsTrue result → AreTied entries.now }
{
    entries.iter().all(is_tied)
}

fn is_tied(entry: &Entry) -> bool
    ensures { IsTrue result → HasNoFreeThread entry.now }
{
    match entry {
        Entry::Triple(triple) => {
            let after = triple.post.threads.as_slice();
            triple
                .pre
                .as_slice()
                .iter()
                .all(|atom| is_tied_to(after, atom))
        }
        Entry::Initial(_) => true,
    }
}

fn is_tied_to(after: &[u32], atom: &Atom) -> bool
    ensures { IsTrue result → IsTiedTo after.now atom.now }
{
    atom.threads
        .as_slice()
        .iter()
        .all(|thread| *thread == 0 || after.contains(thread))
}

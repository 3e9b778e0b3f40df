//! Tests of the threads of atoms.
ghost use Rattle.std.specs.Prelude.{◌≢◌, ◌↔◌, AllPairs, Contains, IsTrue};
ghost use Rattle.ps_triple.specs.Tests.{HasDistinctThreads, HasNoFreeThread, HasThreadsOnce, IsTied, IsTiedTo};

use crate::entry::Entry;
use ps_atom::Atom;

// Whether no atom of the entry has a thread twice.
pub(crate) fn has_distinct_threads(entry: &Entry) -> bool
    ensures { IsTrue result ↔ HasDistinctThreads entry.now }
{
    match entry {
        Entry::Triple(triple) => {
            triple.pre.as_slice().iter().all(has_threads_once) && has_threads_once(&triple.post)
        }
        Entry::Initial(_) => true,
    }
}

// Whether each thread before the command is 0 or one of those after it.
pub(crate) fn has_no_free_thread(entry: &Entry) -> bool
    ensures { IsTrue result ↔ HasNoFreeThread entry.now }
{
    match entry {
        Entry::Triple(triple) => {
            let after = triple.post.threads.as_slice();
            triple
                .pre
                .as_slice()
                .iter()
                .all(|atom| is_tied_to(after, atom))
        }
        Entry::Initial(_) => true,
    }
}

/// Whether no thread stands twice in the atom. In time of the square of its few threads.
pub fn has_threads_once(atom: &Atom) -> bool
    ensures { IsTrue result ↔ HasThreadsOnce atom.now }
{
    are_distinct(atom.threads.as_slice())
}

// Whether no two are the same; threads of an atom are few.
fn are_distinct(threads: &[u32]) -> bool
    ensures { IsTrue result ↔ AllPairs (λ s t. s ≢ t) threads.now }
{
    for i in 0..threads.len() {
        if is_among(&threads[..i], threads[i]) {
            return false;
        }
    }
    true
}

fn is_among(threads: &[u32], thread: u32) -> bool
    ensures { IsTrue result ↔ Contains threads.now thread }
{
    threads.contains(&thread)
}

// Whether each thread of the atom is 0 or one of these.
fn is_tied_to(after: &[u32], atom: &Atom) -> bool
    ensures { IsTrue result ↔ IsTiedTo after.now atom.now }
{
    atom.threads
        .as_slice()
        .iter()
        .all(|thread| *thread == 0 || after.contains(thread))
}

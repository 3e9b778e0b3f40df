//! The sizes of the configurations that a step leads to.
ghost use Rattle.ps_config.specs.declared.config.TheConstants.{MOST_ATOMS as most_atoms, MOST_THREADS as most_threads};
ghost use Rattle.ps_demand.specs.Pools.{lists_of};
ghost use Rattle.ps_step.specs.inner.Sets.{HasLength, HasThreadsWith, IsFirstOver};

use ps_atom::Atom;
use ps_config::{MOST_ATOMS, MOST_THREADS, thread_count};

/// How many atoms the first of the sets has that has too many.
pub(crate) fn first_atoms_over(sets: &[Vec<Atom>]) -> Option<usize>
    ensures { IsFirstOver most_atoms HasLength (lists_of sets.now) result }
{
    for set in sets {
        let count = set.as_slice().len();
        if count > MOST_ATOMS {
            return Some(count);
        }
    }
    None
}

/// How many threads the first of the sets has that has too many with these located ones.
pub(crate) fn first_threads_over(at: &[(u32, u32)], sets: &[Vec<Atom>]) -> Option<usize>
    ensures { IsFirstOver most_threads (HasThreadsWith at.now) (lists_of sets.now) result }
{
    for set in sets {
        let count = thread_count(at, set.as_slice());
        if count > MOST_THREADS {
            return Some(count);
        }
    }
    None
}

//! Whether lists are in the form of a configuration.
ghost use Rattle.std.specs.Prelude.{◌≡◌, ◌↔◌, IsTrue, map};
ghost use Rattle.std.specs.List.Sorted.{IsStrictlyIncreasing, IsStrictlySortedBy};
ghost use Rattle.std.specs.declared.cmp.Ordering.TheVariants.{Less};
ghost use Rattle.ps_atom.specs.Atoms.{atom_cmp};
ghost use Rattle.ps_config.specs.Forms.{IsConfig};

use crate::config::{MOST_ATOMS, MOST_THREADS};
use crate::threads::thread_count;
use ps_atom::Atom;

/// Whether both lists ascend and are within the limits, in a pass over both for each thread.
pub(crate) fn is_in_form(at: &[(u32, u32)], atoms: &[Atom]) -> bool
    ensures { IsTrue result ↔ IsConfig (record { at = at.now; atoms = atoms.now }) }
{
    if atoms.len() > MOST_ATOMS {
        return false;
    }
    if !threads_ascend(at) {
        return false;
    }
    if !atoms_ascend(atoms) {
        return false;
    }
    thread_count(at, atoms) <= MOST_THREADS
}

/// Whether the threads with locations ascend.
pub(crate) fn threads_ascend(at: &[(u32, u32)]) -> bool
    ensures { IsTrue result ↔ IsStrictlyIncreasing (map (λ p. p.0) at.now) }
{
    for place in 1..at.len() {
        if at[place].0 <= at[place - 1].0 {
            return false;
        }
    }
    true
}

fn atoms_ascend(atoms: &[Atom]) -> bool
    ensures { IsTrue result ↔ IsStrictlySortedBy atom_cmp atoms.now }
{
    for place in 1..atoms.len() {
        if !is_below(&atoms[place - 1], &atoms[place]) {
            return false;
        }
    }
    true
}

fn is_below(one: &Atom, other: &Atom) -> bool
    ensures { IsTrue result ↔ (atom_cmp one.now other.now ≡ Less) }
{
    one.compare(other).is_lt()
}

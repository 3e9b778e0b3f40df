// Tests of the numbers of entries.
ghost use Rattle.std.specs.Prelude.{◌↔◌, IsTrue};
ghost use Rattle.ps_triple.specs.Tests.{IsAtomOf, IsThere, NamesThings};

use crate::entry::Entry;
use ps_atom::{Atom, Predicate};
use ps_command::Setting;

// Whether the numbers of the entry name things, its predicates are in range, and its atoms have as many threads as
// slots.
pub(crate) fn names_things(setting: &Setting, predicates: &[Predicate], entry: &Entry) -> bool
    ensures { IsTrue result ↔ NamesThings setting.now predicates.now entry.now }
{
    match entry {
        Entry::Triple(triple) => {
            (triple.command as usize) < setting.commands.as_slice().len()
                && triple
                    .pre
                    .as_slice()
                    .iter()
                    .all(|atom| is_atom_of(setting, predicates, atom))
                && is_atom_of(setting, predicates, &triple.post)
        }
        Entry::Initial(initial) => is_there(setting, predicates, initial.predicate),
    }
}

// Whether the atom's predicate is there and in range, and has as many slots as the atom has threads.
fn is_atom_of(setting: &Setting, predicates: &[Predicate], atom: &Atom) -> bool
    ensures { IsTrue result ↔ IsAtomOf setting.now predicates.now atom.now }
{
    is_there(setting, predicates, atom.predicate)
        && atom.threads.as_slice().len() == predicates[atom.predicate as usize].arity as usize
}

// Whether the predicate is there, and in range for the setting.
fn is_there(setting: &Setting, predicates: &[Predicate], number: u32) -> bool
    ensures { IsTrue result ↔ IsThere setting.now predicates.now number }
{
    match predicates.get(number as usize) {
        Some(predicate) => predicate.is_in_range(setting.globals, setting.locals),
        None => false,
    }
}

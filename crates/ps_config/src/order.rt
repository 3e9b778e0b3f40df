//! The order of lists of located threads and of atoms.
ghost use Rattle.std.specs.Prelude.{◌≡◌};
ghost use Rattle.std.specs.Cmp.Lexicographic.{slice_cmp};
ghost use Rattle.ps_atom.specs.Atoms.{atom_cmp};
ghost use Rattle.ps_config.specs.Forms.{place_cmp};

use ps_atom::Atom;
use std::cmp::Ordering;

pub(crate) fn compare_places(one: &[(u32, u32)], other: &[(u32, u32)]) -> Ordering
    ensures { result ≡ slice_cmp place_cmp one.now other.now }
{
    one.cmp(other)
}

/// The first atoms that differ decide; a list that the other begins with comes first.
pub(crate) fn compare_atoms(one: &[Atom], other: &[Atom]) -> Ordering
    ensures { result ≡ slice_cmp atom_cmp one.now other.now }
{
    for (place, atom) in one.iter().enumerate() {
        if place >= other.len() {
            return Ordering::Greater;
        }
        let order = atom.compare(&other[place]);
        if order.is_ne() {
            return order;
        }
    }
    if one.len() < other.len() {
        return Ordering::Less;
    }
    Ordering::Equal
}

//! What can be told by counts.
ghost use Rattle.std.specs.Prelude.{◌≡◌, length};
ghost use Rattle.std.specs.List.{list_all, list_any};
ghost use Rattle.ps_cover.specs.inner.Counts.{those_at, those_of, counts_allow, place_counts, atom_counts, is_bare};

use ps_atom::Atom;
use ps_config::Config;

/// Whether the counts and the atoms without threads let the one cover the other.
pub(crate) fn may_cover(small: &Config, at: &[(u32, u32)], atoms: &[Atom]) -> bool
    ensures { result ≡ counts_allow small.now.at small.now.atoms at.now atoms.now }
{
    places_allow(small.at(), at) && atoms_allow(small.atoms(), atoms)
}

fn places_allow(small: &[(u32, u32)], at: &[(u32, u32)]) -> bool
    ensures { result ≡ list_all (place_counts small.now at.now) small.now }
{
    small
        .iter()
        .all(|place| count_at(small, place.1) <= count_at(at, place.1))
}

fn atoms_allow(small: &[Atom], atoms: &[Atom]) -> bool
    ensures { result ≡ list_all (atom_counts small.now atoms.now) small.now }
{
    small.iter().all(|atom| atom_allows(small, atoms, atom))
}

fn atom_allows(small: &[Atom], atoms: &[Atom], atom: &Atom) -> bool
    ensures { result ≡ atom_counts small.now atoms.now atom.now }
{
    count_of(small, atom.predicate) <= count_of(atoms, atom.predicate)
        && (!atom.threads.as_slice().is_empty() || has_bare(atoms, atom.predicate))
}

fn count_at(at: &[(u32, u32)], location: u32) -> usize
    ensures { result ≡ length (those_at location at.now) }
{
    at.iter().filter(|place| place.1 == location).count()
}

fn count_of(atoms: &[Atom], predicate: u32) -> usize
    ensures { result ≡ length (those_of predicate atoms.now) }
{
    atoms
        .iter()
        .filter(|atom| atom.predicate == predicate)
        .count()
}

fn has_bare(atoms: &[Atom], predicate: u32) -> bool
    ensures { result ≡ list_any (is_bare predicate) atoms.now }
{
    atoms.iter().any(|atom| is_bare_atom(predicate, atom))
}

fn is_bare_atom(predicate: u32, atom: &Atom) -> bool
    ensures { result ≡ is_bare predicate atom.now }
{
    atom.predicate == predicate && atom.threads.as_slice().is_empty()
}

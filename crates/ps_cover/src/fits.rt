//! Whether a thread can go to an image.
ghost use Rattle.std.specs.Prelude.{◌≡◌, ◌<◌, length};
ghost use Rattle.std.specs.List.{list_all};
ghost use Rattle.ps_cover.specs.inner.Tests.{is_listed, is_placed, place_kept, atom_kept, can_go};

use crate::images::has_match;
use crate::partial::Partial;
use ps_atom::Atom;
use ps_config::{Config, MOST_THREADS};

/// Whether the thread can go to the image, where some threads have images: the image is no other
/// thread's, it has the thread's location, and each atom of the thread matches one of the atoms.
pub(crate) fn fits(
    small: &Config,
    at: &[(u32, u32)],
    atoms: &[Atom],
    partial: &Partial,
    thread: u32,
    image: u32,
) -> bool
    requires long { length partial.now.threads ≡ length partial.now.to }
    requires few { length partial.now.threads < MOST_THREADS }
    ensures { result ≡ can_go small.now.at small.now.atoms at.now atoms.now
        partial.now.threads partial.now.to thread image }
{
    if has(partial.to.as_slice(), image) || !fits_places(small.at(), at, thread, image) {
        return false;
    }
    fits_atoms(small.atoms(), atoms, thread, &partial.with(thread, image))
}

pub(crate) fn has(numbers: &[u32], number: u32) -> bool
    ensures { result ≡ is_listed numbers.now number }
{
    numbers.contains(&number)
}

pub(crate) fn has_place(at: &[(u32, u32)], thread: u32, location: u32) -> bool
    ensures { result ≡ is_placed at.now thread location }
{
    at.iter()
        .any(|place| place.0 == thread && place.1 == location)
}

/// Whether the image is at the place's location if the place is the thread's.
fn keeps_place(place: (u32, u32), at: &[(u32, u32)], thread: u32, image: u32) -> bool
    ensures { result ≡ place_kept at.now thread image place }
{
    place.0 != thread || has_place(at, image, place.1)
}

fn fits_places(small: &[(u32, u32)], at: &[(u32, u32)], thread: u32, image: u32) -> bool
    ensures { result ≡ list_all (place_kept at.now thread image) small.now }
{
    small
        .iter()
        .all(|place| keeps_place(*place, at, thread, image))
}

/// Whether the atom matches one of the atoms if it is one of the thread.
fn keeps_atom(atom: &Atom, atoms: &[Atom], thread: u32, partial: &Partial) -> bool
    requires { length partial.now.threads ≡ length partial.now.to }
    ensures { result ≡ atom_kept atoms.now thread partial.now.threads partial.now.to atom.now }
{
    !has(atom.threads.as_slice(), thread) || has_match(partial, atom, atoms)
}

fn fits_atoms(small: &[Atom], atoms: &[Atom], thread: u32, partial: &Partial) -> bool
    requires { length partial.now.threads ≡ length partial.now.to }
    ensures { result ≡ list_all (atom_kept atoms.now thread partial.now.threads partial.now.to) small.now }
{
    small
        .iter()
        .all(|atom| keeps_atom(atom, atoms, thread, partial))
}

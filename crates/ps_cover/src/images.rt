//! Which atoms an atom can still go to.
ghost use Rattle.std.specs.Prelude.{◌≡◌, length};
ghost use Rattle.std.specs.List.{list_any};
ghost use Rattle.ps_cover.specs.inner.Agreeing.{agrees_with, atom_agrees, found, slots_agree};

use crate::partial::Partial;
use ps_atom::Atom;

/// Where a thread goes, if it goes anywhere yet: to the image at its place among the threads.
fn image_of(threads: &[u32], to: &[u32], thread: u32) -> Option<u32>
    requires { length threads.now ≡ length to.now }
    ensures { result ≡ found threads.now to.now thread }
{
    for (at, other) in threads.iter().enumerate() {
        if *other == thread {
            return Some(to[at]);
        }
    }
    None
}

/// Whether the image, if there is one, is this thread.
fn is_right(image: Option<u32>, thread: u32) -> bool
    ensures { result ≡ agrees_with image thread }
{
    match image {
        Some(right) => right == thread,
        None => true,
    }
}

/// Whether slot by slot the second threads are the images of the first, where these have images yet.
fn slots_match(threads: &[u32], to: &[u32], ones: &[u32], others: &[u32]) -> bool
    requires { length threads.now ≡ length to.now }
    ensures { result ≡ slots_agree threads.now to.now ones.now others.now }
{
    if ones.len() != others.len() {
        return false;
    }
    for (at, one) in ones.iter().enumerate() {
        if !is_right(image_of(threads, to, *one), others[at]) {
            return false;
        }
    }
    true
}

fn atoms_match(partial: &Partial, atom: &Atom, other: &Atom) -> bool
    requires { length partial.now.threads ≡ length partial.now.to }
    ensures { result ≡ atom_agrees partial.now.threads partial.now.to atom.now other.now }
{
    atom.predicate == other.predicate
        && slots_match(
            partial.threads.as_slice(),
            partial.to.as_slice(),
            atom.threads.as_slice(),
            other.threads.as_slice(),
        )
}

/// Whether the atom can still go to one of the atoms: to its image, once all its threads have images.
pub(crate) fn has_match(partial: &Partial, atom: &Atom, atoms: &[Atom]) -> bool
    requires { length partial.now.threads ≡ length partial.now.to }
    ensures { result ≡ list_any (atom_agrees partial.now.threads partial.now.to atom.now) atoms.now }
{
    atoms.iter().any(|other| atoms_match(partial, atom, other))
}

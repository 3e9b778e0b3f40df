//! Whether a list of images takes one configuration into another.
ghost use Rattle.std.specs.Prelude.{◌≡◌, length};
ghost use Rattle.std.specs.List.{list_all};
ghost use Rattle.ps_config.specs.Sent.{sent};
ghost use Rattle.ps_cover.specs.inner.Tests.{is_placed};
ghost use Rattle.ps_cover_tests.specs.Embedding.{are_sent, goes_to, is_apart, is_kept, is_placed_too, takes_into};

use ps_atom::Atom;
use ps_config::Config;

/// Whether the threads, each to the image at its place, stay apart, are at their locations, and have
/// their atoms.
pub fn embeds(
    small: &Config,
    at: &[(u32, u32)],
    atoms: &[Atom],
    threads: &[u32],
    to: &[u32],
) -> bool
    requires { length to.now ≡ length threads.now }
    ensures { result ≡ takes_into small.now
        (record { at = at.now; atoms = atoms.now }) threads.now to.now }
{
    all_apart(threads, to)
        && keep_places(small.at(), at, threads, to)
        && keep_atoms(small.atoms(), atoms, threads, to)
}

/// The image at the thread's place.
fn image_of(threads: &[u32], to: &[u32], thread: u32) -> u32
    requires { length to.now ≡ length threads.now }
    ensures { result ≡ sent threads.now to.now thread }
{
    for (at, other) in threads.iter().enumerate() {
        if *other == thread {
            return to[at];
        }
    }
    thread
}

fn all_apart(threads: &[u32], to: &[u32]) -> bool
    requires { length to.now ≡ length threads.now }
    ensures { result ≡ list_all (is_apart threads.now to.now) threads.now }
{
    threads
        .iter()
        .all(|thread| stays_apart(threads, to, *thread))
}

/// Whether no other thread has the thread's image.
fn stays_apart(threads: &[u32], to: &[u32], thread: u32) -> bool
    requires { length to.now ≡ length threads.now }
    ensures { result ≡ is_apart threads.now to.now thread }
{
    threads.iter().all(|other| *other == thread
        || image_of(threads, to, *other) != image_of(threads, to, thread))
}

fn keep_places(small: &[(u32, u32)], at: &[(u32, u32)], threads: &[u32], to: &[u32]) -> bool
    requires { length to.now ≡ length threads.now }
    ensures { result ≡ list_all (is_placed_too at.now threads.now to.now) small.now }
{
    small.iter().all(|place| has_place(at, image_of(threads, to, place.0), place.1))
}

fn has_place(at: &[(u32, u32)], thread: u32, location: u32) -> bool
    ensures { result ≡ is_placed at.now thread location }
{
    at.iter()
        .any(|place| place.0 == thread && place.1 == location)
}

fn keep_atoms(small: &[Atom], atoms: &[Atom], threads: &[u32], to: &[u32]) -> bool
    requires { length to.now ≡ length threads.now }
    ensures { result ≡ list_all (is_kept atoms.now threads.now to.now) small.now }
{
    small.iter().all(|atom| has_image(atoms, threads, to, atom))
}

fn has_image(atoms: &[Atom], threads: &[u32], to: &[u32], atom: &Atom) -> bool
    requires { length to.now ≡ length threads.now }
    ensures { result ≡ is_kept atoms.now threads.now to.now atom.now }
{
    atoms.iter().any(|other| is_image(threads, to, atom, other))
}

/// Whether the atom's image is this atom.
fn is_image(threads: &[u32], to: &[u32], atom: &Atom, other: &Atom) -> bool
    requires { length to.now ≡ length threads.now }
    ensures { result ≡ goes_to threads.now to.now atom.now other.now }
{
    atom.predicate == other.predicate
        && are_images(
            threads,
            to,
            atom.threads.as_slice(),
            other.threads.as_slice(),
        )
}

/// Whether slot by slot the second threads are the images of the first.
fn are_images(threads: &[u32], to: &[u32], ones: &[u32], others: &[u32]) -> bool
    requires { length to.now ≡ length threads.now }
    ensures { result ≡ are_sent threads.now to.now ones.now others.now }
{
    if ones.len() != others.len() {
        return false;
    }
    for (at, one) in ones.iter().enumerate() {
        if image_of(threads, to, *one) != others[at] {
            return false;
        }
    }
    true
}

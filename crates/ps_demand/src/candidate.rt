//! What may demand something.

use ps_atom::Atom;
use ps_triple::Entry;

/// An atom with a triple of a command whose atom after has its predicate: it may demand something for the atom, by some
/// thread.
#[derive(Clone, Copy)]
pub struct Candidate<'a> {
    pub atom: &'a Atom,
    pub entry: &'a Entry,
}

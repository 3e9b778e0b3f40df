// Atoms that sets are made of.

use ps_atom::Atom;
use ps_term::Row;

// An atom with its row, which is made once for all sets.
#[derive(Drop)]
pub(crate) struct Choice {
    pub(crate) atom: Atom,
    pub(crate) row: Row,
}

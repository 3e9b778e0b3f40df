//! Demands in two parts.

use ps_atom::Atom;

/// Demands: the atoms that are demanded alone, and the sets of none or several atoms.
#[derive(Drop)]
pub struct Parted {
    pub alone: Vec<Atom>,
    pub others: Vec<Vec<Atom>>,
}

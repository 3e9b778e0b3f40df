// Letters on the way back.

use ps_atom::Atom;

// A letter, and the atoms after it of which some are demanded.
#[derive(Drop)]
pub(crate) struct Cut {
    pub(crate) thread: u32,
    pub(crate) command: u32,
    pub(crate) after: Vec<Atom>,
}

// The letters of a trace, the last one first, and the atoms before the first one.
#[derive(Drop)]
pub(crate) struct Walk {
    pub(crate) cuts: Vec<Cut>,
    pub(crate) first: Vec<Atom>,
}

//! The atoms before the command of a triple.
ghost use Rattle.std.specs.Prelude.{IsTrue};
ghost use Rattle.ps_triple.specs.Ascending.{ascend};

use ps_atom::Atom;
use ps_list::Sequence;

/// Atoms that strictly ascend.
#[derive(Debug, Drop)]
pub struct Before {
    pub atoms: Sequence<Atom>,
    pub ghost ascends: { IsTrue (ascend atoms) },
}

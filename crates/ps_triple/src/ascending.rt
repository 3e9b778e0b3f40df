//! The order of atoms before a command.
ghost use Rattle.std.specs.Prelude.{◌≡◌};
ghost use Rattle.ps_triple.specs.Ascending.{ascend, atom_is_before_all};

use ps_atom::Atom;

/// Whether the atoms strictly ascend, as those before the command of a triple do. In time of their threads.
pub fn ascends(atoms: &[Atom]) -> bool
    ensures { result ≡ ascend atoms.now }
{
    let mut rest = atoms;
    'walking: while let Some((first, others)) = rest.split_first() {
        if !is_before_all(first, others) {
            return false;
        }
        rest = others;
    }
    true
}

// Whether the atom comes before the first of the others, if there is one.
fn is_before_all(atom: &Atom, others: &[Atom]) -> bool
    ensures { result ≡ atom_is_before_all atom.now others.now }
{
    match others.first() {
        None => true,
        Some(next) => atom.compare(next).is_lt(),
    }
}

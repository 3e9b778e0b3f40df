// What listings look entries up by.
ghost use Rattle.std.specs.Cmp.Lexicographic.{pointwise};
ghost use Rattle.std.specs.List.{flat_map, fold};
ghost use Rattle.std.specs.Prelude.{◌≡◌};
ghost use Rattle.ps_interp.specs.inner.Keys.{atom_eq, atom_fed, triple_eq};

use ps_atom::Atom;
use ps_triple::{Entry, Triple};
use std::hash::{Hash, Hasher};

// An entry that is compared and hashed by all that it holds.
#[derive(Drop)]
pub(crate) struct EntryKey {
    pub(crate) entry: Entry,
}

impl PartialEq for EntryKey {
    ghost use Rattle.ps_interp.specs.inner.KeyLaws.{key_laws};
    ghost use Rattle.ps_interp.specs.inner.Keys.{key_eq};

    ghost eq = { key_eq };

    ghost laws = { key_laws };

    fn eq(&self, other: &EntryKey) -> bool {
        match (&self.entry, &other.entry) {
            (Entry::Triple(one), Entry::Triple(other)) => is_same_triple(one, other),
            (Entry::Initial(one), Entry::Initial(other)) => {
                one.predicate == other.predicate && one.lambda.as_slice() == other.lambda.as_slice()
            }
            _ => false,
        }
    }
}

impl Eq for EntryKey {
    ghost use Rattle.ps_interp.specs.inner.KeyLaws.{key_equiv};

    ghost laws = { key_equiv };
}

impl Hash for EntryKey {
    ghost use Rattle.ps_interp.specs.inner.KeyLaws.{key_alike};
    ghost use Rattle.ps_interp.specs.inner.Keys.{key_fed};

    ghost hash_input = { key_fed };

    ghost respects_eq = { key_alike };

    fn hash<H: Hasher>(&self, state: &mut H) {
        match &self.entry {
            Entry::Triple(triple) => {
                triple.command.hash(state);
                hash_atom(&triple.post, state);
                hash_atoms(triple.pre.as_slice(), state);
                triple.lambda.as_slice().hash(state);
            }
            Entry::Initial(initial) => {
                initial.predicate.hash(state);
                initial.lambda.as_slice().hash(state);
            }
        }
    }
}

fn is_same_triple(one: &Triple, other: &Triple) -> bool
    ensures { result ≡ triple_eq one.now other.now }
{
    one.command == other.command
        && is_same_atom(&one.post, &other.post)
        && are_same_atoms(one.pre.as_slice(), other.pre.as_slice())
        && one.lambda.as_slice() == other.lambda.as_slice()
}

fn are_same_atoms(one: &[Atom], other: &[Atom]) -> bool
    ensures { result ≡ pointwise atom_eq one.now other.now }
{
    if one.len() != other.len() {
        return false;
    }
    for place in 0..one.len() {
        if !is_same_atom(&one[place], &other[place]) {
            return false;
        }
    }
    true
}

fn is_same_atom(one: &Atom, other: &Atom) -> bool
    ensures { result ≡ atom_eq one.now other.now }
{
    one.predicate == other.predicate && one.threads.as_slice() == other.threads.as_slice()
}

fn hash_atoms<H: Hasher>(atoms: &[Atom], state: &mut H)
    ensures { state.new ≡ fold H.write state.old (flat_map atom_fed atoms.now) }
{
    for atom in atoms {
        hash_atom(atom, state);
    }
}

fn hash_atom<H: Hasher>(atom: &Atom, state: &mut H)
    ensures { state.new ≡ fold H.write state.old (atom_fed atom.now) }
{
    atom.predicate.hash(state);
    atom.threads.as_slice().hash(state);
}

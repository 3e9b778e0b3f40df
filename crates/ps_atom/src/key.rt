// What the index of a table looks predicates up by.
use crate::predicate::Predicate;
use ps_term::Var;
use std::hash::{Hash, Hasher};

// A predicate that is compared and hashed by its arity, its constant and its pairs.
#[derive(Debug, Drop)]
pub(crate) struct Key {
    pub(crate) predicate: Predicate,
}

impl PartialEq for Key {
    ghost use Rattle.ps_atom.specs.inner.KeyLaws.{key_laws};
    ghost use Rattle.ps_atom.specs.inner.Keys.{key_eq};

    ghost eq = { key_eq };

    ghost laws = { key_laws };

    fn eq(&self, other: &Key) -> bool {
        let left = &self.predicate;
        let right = &other.predicate;
        left.arity == right.arity
            && left.row.term.constant == right.row.term.constant
            && left.row.term.pairs.as_slice() == right.row.term.pairs.as_slice()
    }
}

impl Eq for Key {
    ghost use Rattle.ps_atom.specs.inner.KeyLaws.{key_equiv};

    ghost laws = { key_equiv };
}

impl Hash for Key {
    ghost use Rattle.ps_atom.specs.inner.KeyLaws.{key_alike};
    ghost use Rattle.ps_atom.specs.inner.Keys.{key_fed};

    ghost hash_input = { key_fed };

    ghost respects_eq = { key_alike };

    fn hash<H: Hasher>(&self, state: &mut H) {
        self.predicate.arity.hash(state);
        self.predicate.row.term.constant.hash(state);
        self.predicate.row.term.pairs.as_slice().hash(state);
    }
}

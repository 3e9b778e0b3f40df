//! Atoms that sort.
ghost use Rattle.std.specs.Prelude.{◌==◌, ◌&&◌};
ghost use Rattle.std.proofs.Common.{rules};
ghost use Rattle.std.specs.Cmp.{partial_order_from_own_ties};
ghost use Rattle.std.specs.Cmp.Lexicographic.{pointwise, slice_cmp};
ghost use Rattle.std.specs.Cmp.Rules.{comparing};
ghost use Rattle.std.specs.Ordering.{as_partial_cmp, eq_of_both, nat_cmp, on, then_cmp};

use ps_atom::Atom;
use std::cmp::Ordering;

/// An atom, which sorts by the order of atoms.
#[derive(Drop)]
pub(crate) struct Ranked {
    pub(crate) atom: Atom,
}

impl Ord for Ranked {
    ghost cmp = { then_cmp (on (λ r. r.atom.predicate) nat_cmp) (on (λ r. r.atom.threads) (slice_cmp nat_cmp)) };

    ghost total = { Prim.search (comparing, rules) };

    ghost matches_partial_cmp = { Prim.search (comparing, rules) };

    ghost matches_eq = { Prim.search (comparing, rules) };

    fn cmp(&self, other: &Ranked) -> Ordering {
        self.atom.compare(&other.atom)
    }
}

impl PartialOrd for Ranked {
    ghost partial_cmp = { as_partial_cmp (then_cmp (on (λ r. r.atom.predicate) nat_cmp) (on (λ r. r.atom.threads) (slice_cmp nat_cmp))) };

    ghost laws = { partial_order_from_own_ties (Prim.search (comparing, rules)) (Prim.search (comparing, rules)) };

    fn partial_cmp(&self, other: &Ranked) -> Option<Ordering> {
        Some(self.cmp(other))
    }
}

impl Eq for Ranked {
    ghost laws = { Prim.search (comparing, rules) };
}

impl PartialEq for Ranked {
    ghost eq = { eq_of_both (on (λ r. r.atom.predicate) ◌==◌) (on (λ r. r.atom.threads) (pointwise ◌==◌)) };

    ghost laws = { Prim.search (comparing, rules) };

    fn eq(&self, other: &Ranked) -> bool {
        self.atom.predicate == other.atom.predicate
            && self.atom.threads.as_slice() == other.atom.threads.as_slice()
    }
}

//! Where entries stand in an index.
ghost use Rattle.std.specs.Prelude.{◌≡◌};
ghost use Rattle.ps_basis.specs.inner.Index.{place_cmp};

use crate::key::Key;
use std::cmp::Ordering;

// The key of an entry, with its number.
#[derive(Clone, Copy)]
pub(crate) struct Place {
    pub(crate) key: Key,
    pub(crate) number: u32,
}

impl Place {
    // The order of places: by key, then by number.
    pub(crate) fn compare(&self, other: &Place) -> Ordering
        ensures { result ≡ place_cmp self.now other.now }
    {
        match self.key.compare(&other.key) {
            Ordering::Equal => self.number.cmp(&other.number),
            unequal => unequal,
        }
    }
}

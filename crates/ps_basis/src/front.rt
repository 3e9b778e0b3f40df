//! The first entries of a basis.
ghost use Rattle.std.specs.Prelude.{◌≡◌, ◌≤◌, IfOk, length};
ghost use Rattle.ps_basis.specs.declared.limits.TheConstants.{MOST_ENTRIES};
ghost use Rattle.ps_basis.specs.inner.Index.{IsIndex};

use crate::index::Index;
use crate::key::Key;
use crate::shown::Shown;
use ps_list::copies;
use ps_triple::Entry;
use std::alloc::{AllocError, Global};
use std::marker::Model;

/// A list of at most `MOST_ENTRIES` entries with an index of them. Contracts see it as a list.
#[derive(Drop)]
pub struct Front {
    list: Vec<Entry>,
    index: Index,
}

impl Model for Front {
    ghost use Rattle.std.specs.Prelude.{◌≤◌, List, length};
    ghost use Rattle.ps_basis.specs.declared.limits.TheConstants.{MOST_ENTRIES};
    ghost use Rattle.ps_basis.specs.inner.Index.{IsIndex};
    ghost use Rattle.ps_triple.specs.declared.entry.Entry.{Entry};

    ghost Value = { List Entry };

    ghost view = { λ f. f.list.items };

    ghost invariant = { λ f. (length f.list.items ≤ MOST_ENTRIES) × IsIndex f.list.items f.index.places.items };
}

impl Front {
    /// Takes the list as it is, and makes its index; of n entries in time n log n, and memory for n numbers.
    pub fn indexed(alloc: Global, list: Vec<Entry>) -> Result<Front, AllocError>
        requires { length list.items ≤ MOST_ENTRIES }
        ensures { IfOk result (λ front. front ≡ list.items) }
    {
        let index = Index::of(alloc, list.as_slice())?;
        Ok(Front { list, index })
    }

    // A list and its index.
    pub(crate) fn new(list: Vec<Entry>, index: Index) -> Front
        requires few { length list.items ≤ MOST_ENTRIES }
        requires indexed { IsIndex list.items index.places.items }
        ensures { result ≡ list.items }
    {
        Front { list, index }
    }

    /// The entries in order; the call needs no memory.
    pub fn list(&self) -> &[Entry]
        ensures entries { result.now ≡ self.now }
        ensures within { length result.now ≤ MOST_ENTRIES }
    {
        self.list.as_slice()
    }

    /// A copy, in time and memory of its entries.
    pub fn copy(&self, alloc: Global) -> Result<Front, AllocError>
        ensures { IfOk result (λ front. front ≡ self.now) }
    {
        Ok(Front {
            list: copies(alloc, self.list.as_slice())?,
            index: self.index.copy(alloc)?,
        })
    }
}

impl Shown for Front {
    ghost entries = { λ f. f };

    fn count(&self) -> u32 {
        self.list.len() as u32
    }

    fn entry(&self, n: u32) -> &Entry {
        &self.list.as_slice()[n as usize]
    }

    fn next_for(&self, post: u32, command: u32, from: u32) -> Option<u32> {
        self.index.first(Key::triple(post, command), from)
    }

    fn is_initial(&self, predicate: u32) -> bool {
        self.index.first(Key::initial(predicate), 0).is_some()
    }
}

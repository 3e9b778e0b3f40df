//! The list of entries that grows.
ghost use Rattle.std.specs.Prelude.{◌≡◌, ◌<◌, ◌≤◌, ◌+◌, ◌++◌, ◌∷◌, [], IfErr, IfOk, OnErr, OnOk, length, take};
ghost use Rattle.ps_basis.specs.Basis.{Growing};
ghost use Rattle.ps_basis.specs.declared.limits.TheConstants.{MOST_ENTRIES};

use crate::front::Front;
use crate::index::Index;
use crate::key::Key;
use crate::limits::MOST_ENTRIES;
use crate::place::Place;
use crate::shown::Shown;
use ps_list::copies;
use ps_triple::Entry;
use std::alloc::{AllocError, Global};
use std::marker::Model;

/// A list of at most `MOST_ENTRIES` entries, which are numbered by their places, with an index of them. That they hold for a
/// setting and a table is a condition of the calls that rest on it.
#[derive(Drop)]
pub struct Basis {
    list: Vec<Entry>,
    index: Index,
    room: usize,
}

impl Model for Basis {
    ghost use Rattle.ps_basis.specs.Basis.{Growing};

    ghost Value = { Growing };

    ghost view = { λ b. record { entries = b.list.items; room = b.room } };

    ghost use Rattle.ps_basis.specs.inner.Indexed.{IsIndexed};

    ghost invariant = { IsIndexed };
}

impl Basis {
    /// No entries; the call needs no memory.
    pub fn new(alloc: Global) -> Basis
        ensures { result.entries ≡ [] }
    {
        Basis {
            list: Vec::new(alloc),
            index: Index::new(alloc),
            room: 0,
        }
    }

    /// Makes room for so many more entries; room for more stays. Without memory nothing changes.
    pub fn reserve(&mut self, _alloc: Global, more: u32) -> Result<(), AllocError>
        ensures entries { self.new.entries ≡ self.old.entries }
        ensures room { OnOk result (more ≤ self.new.room) }
        ensures grows { OnOk result (self.old.room ≤ self.new.room) }
        ensures kept { OnErr result (self.new ≡ self.old) }
    {
        let more = more as usize;
        self.list.reserve(more)?;
        self.index.reserve(more)?;
        self.room = self.room.max(more);
        Ok(())
    }

    /// Appends an entry, for which room was reserved, and gives its number; where there are `MOST_ENTRIES` it hands the entry
    /// back. The call needs no memory; of n entries it looks at log n, and moves at most n numbers.
    pub fn push_reserved(&mut self, entry: Entry) -> Result<u32, Entry>
        requires { 0 < self.old.room }
        ensures number { IfOk result (λ number. number ≡ length self.old.entries) }
        ensures appended { OnOk result (self.new.entries ≡ self.old.entries ++ entry ∷ []) }
        ensures room { self.old.room ≤ self.new.room + 1 }
        ensures below { OnOk result (length self.old.entries < MOST_ENTRIES) }
        ensures back { IfErr result (λ back. back ≡ entry) }
        ensures full { OnErr result (length self.old.entries ≡ MOST_ENTRIES) }
        ensures unchanged { OnErr result (self.new ≡ self.old) }
    {
        let number = self.list.len();
        if number >= MOST_ENTRIES {
            return Err(entry);
        }
        let number = number as u32;
        self.index.insert_reserved(Place {
            key: Key::of(&entry),
            number,
        });
        self.list.push_reserved(entry);
        self.room -= 1;
        Ok(number)
    }

    /// A copy of the first entries, in time and memory of these, and a pass over the numbers of all.
    pub fn front(&self, alloc: Global, count: u32) -> Result<Front, AllocError>
        requires { count ≤ length self.now.entries }
        ensures { IfOk result (λ front. front ≡ take count self.now.entries) }
    {
        let first = copies(alloc, &self.list.as_slice()[..count as usize])?;
        Ok(Front::new(first, self.index.front(alloc, count)?))
    }

    /// The entries in order; the call needs no memory.
    pub fn list(&self) -> &[Entry]
        ensures entries { result.now ≡ self.now.entries }
        ensures within { length result.now ≤ MOST_ENTRIES }
    {
        self.list.as_slice()
    }

    /// A copy, in time and memory of its entries. It may have other room.
    pub fn copy(&self, alloc: Global) -> Result<Basis, AllocError>
        ensures { IfOk result (λ basis. basis.entries ≡ self.now.entries) }
    {
        Ok(Basis {
            list: copies(alloc, self.list.as_slice())?,
            index: self.index.copy(alloc)?,
            room: 0,
        })
    }
}

impl Shown for Basis {
    ghost entries = { λ b. b.entries };

    fn count(&self) -> u32 {
        self.list.len() as u32
    }

    fn entry(&self, n: u32) -> &Entry {
        &self.list.as_slice()[n as usize]
    }

    fn next_for(&self, post: u32, command: u32, from: u32) -> Option<u32> {
        self.index.first(Key::triple(post, command), from)
    }

    fn is_initial(&self, predicate: u32) -> bool {
        self.index.first(Key::initial(predicate), 0).is_some()
    }
}

// Lists in which equal entries stand once.
ghost use Rattle.std.specs.Prelude.{◌≡◌, [], IfOk, OnOk, map};
ghost use Rattle.ps_interp.specs.inner.Keys.{entry_of};
ghost use Rattle.ps_interp.specs.inner.Meetings.{IsListed};

use crate::entry_key::EntryKey;
use indexmap::IndexSet;
use ps_triple::Entry;
use std::alloc::{AllocError, Global};
use std::marker::Model;

// Entries in the order in which they were listed first, which contracts see as their list.
#[derive(Drop)]
pub(crate) struct Listing {
    keys: IndexSet<EntryKey>,
}

impl Model for Listing {
    ghost use Rattle.std.specs.Prelude.{List, map};
    ghost use Rattle.ps_interp.specs.inner.Keys.{entry_of};
    ghost use Rattle.ps_triple.specs.declared.entry.Entry.{Entry};

    ghost Value = { List Entry };

    ghost view = { λ l. map entry_of l.keys.keys };
}

impl Listing {
    // No entries, with room for so many.
    pub(crate) fn with_capacity(alloc: Global, most: usize) -> Result<Listing, AllocError>
        ensures { IfOk result (λ listing. listing ≡ []) }
    {
        Ok(Listing {
            keys: IndexSet::with_capacity(alloc, most)?,
        })
    }

    // Appends the entry, unless it stands there, with one look-up.
    pub(crate) fn push_once(&mut self, entry: Entry) -> Result<(), AllocError>
        ensures { OnOk result (IsListed self.old entry self.new) }
    {
        self.keys.insert(EntryKey { entry })?;
        Ok(())
    }

    // The entries in their order, which are moved, not copied.
    pub(crate) fn into_list(self, alloc: Global) -> Result<Vec<Entry>, AllocError>
        ensures { IfOk result (λ list. list.items ≡ self) }
    {
        let Listing { keys } = self;
        entries_of(alloc, keys)
    }
}

// The entries of the keys.
fn entries_of(alloc: Global, keys: IndexSet<EntryKey>) -> Result<Vec<Entry>, AllocError>
    ensures { IfOk result (λ entries. entries.items ≡ map entry_of keys.keys) }
{
    let mut entries = Vec::with_capacity(alloc, keys.len())?;
    for key in keys {
        let EntryKey { entry } = key;
        entries.push(entry)?;
    }
    Ok(entries)
}

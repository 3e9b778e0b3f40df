//! Whether an entry holds, whatever its fault is.
ghost use Rattle.std.specs.Prelude.{◌↔◌, IfOk, IsTrue};
ghost use Rattle.ps_triple.specs.Faults.{EntryHolds};

use crate::check::check_entry;
use crate::entry::Entry;
use crate::entry_end::EntryEnd;
use crate::short::is_short;
use ps_atom::Predicates;
use ps_command::Setting;
use std::alloc::{AllocError, Global};

/// Whether the entry holds. More rows or multipliers than 32 bits can count are answered as want of memory, which so
/// many are. In the time and memory of `check_entry`.
pub fn entry_holds(
    alloc: Global,
    setting: &Setting,
    predicates: &Predicates,
    entry: &Entry,
) -> Result<bool, AllocError>
    ensures { IfOk result (λ yes. IsTrue yes ↔ EntryHolds setting.now predicates.now entry.now) }
{
    if !is_short(setting, entry) {
        return Err(AllocError);
    }
    match check_entry(alloc, setting, predicates, entry) {
        Ok(()) => Ok(true),
        Err(EntryEnd::Fault(_)) => Ok(false),
        Err(EntryEnd::Memory(end)) => Err(end),
    }
}

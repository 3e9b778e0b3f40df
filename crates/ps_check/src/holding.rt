//! Whether the entries of a proof hold.
ghost use Rattle.std.specs.Prelude.{◌≤◌, ◌↔◌, IfOk, IsTrue, Contains, length};
ghost use Rattle.ps_check.specs.Faults.{DoEntriesHold, table_of};
ghost use Rattle.ps_triple.specs.Faults.{EntryHolds};
ghost use Rattle.ps_triple.specs.declared.entry.Entry.{Entry as AnEntry};

use crate::entries::table_of;
use ps_atom::Predicates;
use ps_command::Setting;
use ps_file::Proof;
use ps_graph::Graph;
use ps_triple::{Entry, entry_holds};
use std::alloc::{AllocError, Global};

/// Whether each entry of the proof holds, whatever its configurations are. A predicate that no entry names may be out
/// of range. More multipliers than 32 bits can count are answered as want of memory, which so many are.
///
/// In the time of `check_entry` for each entry up to the first that doesn't hold, and in memory of a copy of the
/// predicates and of one entry's rows.
pub fn do_entries_hold(alloc: Global, graph: &Graph, proof: &Proof) -> Result<bool, AllocError>
    requires { length proof.now.predicates ≤ 127 }
    ensures { IfOk result (λ yes. IsTrue yes ↔ DoEntriesHold graph.now proof.now) }
{
    let table = table_of(alloc, proof)?;
    do_all_hold(alloc, &graph.setting, &table, proof.entries.as_slice())
}

/// Whether each of the entries holds.
fn do_all_hold(
    alloc: Global,
    setting: &Setting,
    table: &Predicates,
    entries: &[Entry],
) -> Result<bool, AllocError>
    ensures { IfOk result (λ yes. IsTrue yes ↔ ((entry : AnEntry) → Contains entries.now entry
        → EntryHolds setting.now table.now entry)) }
{
    for entry in entries {
        let held = entry_holds(alloc, setting, table, entry)?;
        if !held {
            return Ok(false);
        }
    }
    Ok(true)
}

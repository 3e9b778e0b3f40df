//! The check of an entry.
ghost use Rattle.std.specs.Prelude.{IfErr, MatchOption, OnOk};
ghost use Rattle.ps_triple.specs.Ends.{EntryEndsBy};
ghost use Rattle.ps_triple.specs.Faults.{EntryHolds, IsFirstEntryFault};
ghost use Rattle.ps_triple.specs.Short.{AreShort};
ghost use Rattle.ps_triple.specs.Tests.{HasDistinctThreads, HasNoFreeThread, NamesThings};

use crate::entry::Entry;
use crate::entry_end::{EntryEnd, EntryFault};
use crate::naming::names_things;
use crate::rows::{make_rows, row_count};
use crate::threads::{has_distinct_threads, has_no_free_thread};
use ps_atom::{Predicate, Predicates};
use ps_command::Setting;
use ps_farkas::refutes_lists;
use ps_term::TermEnd;
use std::alloc::Global;

/// Whether the entry holds: its multipliers refute its rows. The rows of a triple are those of its atoms before in
/// order, the symbolic rows of its command, and `1 - t <= 0` after the command for the row `t <= 0` of its atom after.
/// The rows of an initial entry are those that hold once in the setting, those for each of the threads from 0 up to and
/// including the arity, and `1 - t <= 0` for the predicate's row. The last thread is an extra one: its rows say what is
/// true of any thread.
///
/// Else the first fault is given, in the order of `EntryFault`. In time and memory of the rows' pairs, and of the sum.
pub fn check_entry(
    alloc: Global,
    setting: &Setting,
    predicates: &Predicates,
    entry: &Entry,
) -> Result<(), EntryEnd>
    requires { AreShort setting.now entry.now }
    ensures holds { OnOk result (EntryHolds setting.now predicates.now entry.now) }
    ensures fault { IfErr result (EntryEndsBy
        (IsFirstEntryFault setting.now predicates.now entry.now)) }
{
    let list = predicates.list();
    if let Some(fault) = first_fault(setting, list, entry) {
        return Err(EntryEnd::Fault(fault));
    }
    let lambda = entry.lambda();
    let count = row_count(setting, list, entry);
    if lambda.len() as u64 != count {
        return Err(EntryEnd::Fault(EntryFault::Length {
            found: lambda.len() as u32,
            rows: count,
        }));
    }
    let rows = match make_rows(alloc, setting, list, entry) {
        Ok(rows) => rows,
        Err(TermEnd::Past128) => return Err(EntryEnd::Fault(EntryFault::Past128)),
        Err(TermEnd::Memory(end)) => return Err(EntryEnd::Memory(end)),
    };
    match refutes_lists(&rows.lists(), lambda) {
        Ok(yes) if yes => Ok(()),
        Ok(_) => Err(EntryEnd::Fault(EntryFault::Sum)),
        Err(_) => Err(EntryEnd::Fault(EntryFault::Past128)),
    }
}

// The first fault that is seen without the rows.
fn first_fault(setting: &Setting, predicates: &[Predicate], entry: &Entry) -> Option<EntryFault>
    ensures { MatchOption result
        (NamesThings setting.now predicates.now entry.now × HasDistinctThreads entry.now
        × HasNoFreeThread entry.now)
        (IsFirstEntryFault setting.now predicates.now entry.now) }
{
    if !names_things(setting, predicates, entry) {
        return Some(EntryFault::BadNumber);
    }
    if !has_distinct_threads(entry) {
        return Some(EntryFault::ThreadTwice);
    }
    if !has_no_free_thread(entry) {
        return Some(EntryFault::FreeThread);
    }
    None
}

//! The faults of predicates and entries.
ghost use Rattle.std.specs.Prelude.{◌≡◌, ◌≤◌, ◌<◌, ◌++◌, ◌∷◌, [], IfOk, MatchOption, OnOk, length};
ghost use Rattle.ps_atom.specs.declared.predicates.TheConstants.Predicates.{MOST};
ghost use Rattle.ps_basis.specs.declared.limits.TheConstants.{MOST_ENTRIES};
ghost use Rattle.ps_check.specs.Faults.{IsFirstFault, table_of};
ghost use Rattle.ps_check.specs.inner.Stages.{AreCounted, AreInRange, DoHold};
ghost use Rattle.ps_triple.specs.Faults.{EntryHolds, IsFirstEntryFault};
ghost use Rattle.ps_triple.specs.Short.{AreShort};

use crate::counted::count_of;
use crate::fault::CheckFault;
use ps_atom::{Predicate, Predicates, PushEnd};
use ps_command::Setting;
use ps_file::Proof;
use ps_graph::Graph;
use ps_triple::{Entry, EntryEnd, EntryFault, check_entry};
use std::alloc::{AllocError, Global};

/// The fault of the first predicate that is out of range.
pub(crate) fn predicate_fault(graph: &Graph, proof: &Proof) -> Option<CheckFault>
    requires { length proof.now.predicates ≤ 127 }
    ensures { MatchOption result (AreInRange graph.now proof.now) (IsFirstFault graph.now proof.now) }
{
    let predicates = proof.predicates.as_slice();
    let count = count_of(predicates);
    for place in 0..count {
        let predicate = &predicates[place as usize];
        if !predicate.is_in_range(graph.setting.globals, graph.setting.locals) {
            return Some(CheckFault::Predicate(place + 1));
        }
    }
    None
}

/// The table of false and the listed predicates.
pub(crate) fn table_of(alloc: Global, proof: &Proof) -> Result<Predicates, AllocError>
    requires { length proof.now.predicates ≤ 127 }
    ensures { IfOk result (λ table. table ≡ table_of proof.now) }
{
    let mut table = Predicates::new(alloc)?;
    for predicate in proof.predicates.as_slice() {
        push_copy(alloc, &mut table, predicate)?;
    }
    Ok(table)
}

/// Appends a copy to a table that isn't full.
fn push_copy(alloc: Global, table: &mut Predicates, predicate: &Predicate) -> Result<(), AllocError>
    requires { length table.old < MOST }
    ensures { OnOk result (table.new ≡ table.old ++ predicate.now ∷ []) }
{
    match table.push(alloc, predicate.copy(alloc)?) {
        Ok(_) => Ok(()),
        Err(PushEnd::Memory(end)) => Err(end),
        Err(PushEnd::Full) => unreachable!(),
    }
}

/// The fault of the first entry that doesn't hold.
pub(crate) fn entry_fault(
    alloc: Global,
    graph: &Graph,
    proof: &Proof,
    table: &Predicates,
) -> Result<Option<CheckFault>, AllocError>
    requires in_range { AreInRange graph.now proof.now }
    requires table { table.now ≡ table_of proof.now }
    requires entries { length proof.now.entries ≤ MOST_ENTRIES }
    requires counted { AreCounted graph.now proof.now }
    ensures { IfOk result (λ fault. MatchOption fault
        (DoHold graph.now proof.now) (IsFirstFault graph.now proof.now)) }
{
    let entries = proof.entries.as_slice();
    let count = count_of(entries);
    for number in 0..count {
        match fault_of(alloc, &graph.setting, table, &entries[number as usize])? {
            Some(fault) => return Ok(Some(CheckFault::Entry(number, fault))),
            None => {}
        }
    }
    Ok(None)
}

/// The fault of an entry, if it doesn't hold.
fn fault_of(
    alloc: Global,
    setting: &Setting,
    table: &Predicates,
    entry: &Entry,
) -> Result<Option<EntryFault>, AllocError>
    requires { AreShort setting.now entry.now }
    ensures { IfOk result (λ fault. MatchOption fault
        (EntryHolds setting.now table.now entry.now)
        (IsFirstEntryFault setting.now table.now entry.now)) }
{
    match check_entry(alloc, setting, table, entry) {
        Ok(()) => Ok(None),
        Err(EntryEnd::Fault(fault)) => Ok(Some(fault)),
        Err(EntryEnd::Memory(end)) => Err(end),
    }
}

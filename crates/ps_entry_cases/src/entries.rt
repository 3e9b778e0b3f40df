//! What the check of an entry answers.
use ps_case::word;
use ps_case_space::{Space, space_and_rest};
use ps_triple::{Entry, EntryEnd, EntryFault, check_entry, is_short};
use std::alloc::{AllocError, Global};

/// Whether the proof's only entry holds, `PROGRAM|PROOF|`, or its first fault.
pub fn checked(alloc: Global, input: &str) -> Result<Vec<u8>, AllocError> {
    let (space, _) = space_and_rest(alloc, input)?;
    match space.entries.as_slice() {
        [entry] => answer(alloc, &space, entry),
        _ => Err(AllocError),
    }
}

fn answer(alloc: Global, space: &Space, entry: &Entry) -> Result<Vec<u8>, AllocError> {
    let setting = &space.graph.setting;
    if !is_short(setting, entry) {
        return Err(AllocError);
    }
    match check_entry(alloc, setting, &space.predicates, entry) {
        Ok(()) => word(alloc, "holds"),
        Err(EntryEnd::Fault(fault)) => shown(alloc, fault),
        Err(EntryEnd::Memory(end)) => Err(end),
    }
}

fn shown(alloc: Global, fault: EntryFault) -> Result<Vec<u8>, AllocError> {
    match fault {
        EntryFault::BadNumber => word(alloc, "number"),
        EntryFault::ThreadTwice => word(alloc, "twice"),
        EntryFault::FreeThread => word(alloc, "free"),
        EntryFault::Length { found, rows } => {
            Ok(format!(in alloc; "length {found} {rows}")?.into_bytes())
        }
        EntryFault::Past128 => word(alloc, "past"),
        EntryFault::Sum => word(alloc, "sum"),
    }
}

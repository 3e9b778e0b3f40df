//! Entries of a proof: triples and initial predicates, each with multipliers that show it to be true of all runs.
#![tactic(auto)]

mod ascending;
mod check;
mod entry;
mod entry_end;
mod entry_rows;
mod holding;
mod initial;
pub mod laws;
mod naming;
mod placing;
mod rows;
mod short;
mod threads;
mod triple;
pub mod worked;

pub use ascending::ascends;
pub use check::check_entry;
pub use entry::Entry;
pub use entry_end::{EntryEnd, EntryFault};
pub use holding::entry_holds;
pub use initial::Initial;
pub use rows::{atom_row, denied_row};
pub use short::is_short;
pub use threads::has_threads_once;
pub use triple::Triple;

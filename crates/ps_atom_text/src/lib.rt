//! Predicates, atoms, entries and configurations as lines: the forms that proofs share with other texts, with their
//! readers and printers.
#![tactic(auto)]

mod atom;
mod before;
mod config;
mod draft;
mod entry;
mod field_end;
mod growth;
mod joining;
pub mod laws;
mod limits;
mod met;
mod place;
mod predicate;
mod printing;
pub mod worked;

pub use before::Before;
pub use config::{ConfigLine, take_config};
pub use entry::EntryLine;
pub use limits::{ANY_THREAD, MOST_BEFORE, MOST_THREAD};
pub use predicate::PredicateLine;
pub use printing::{put_config, put_config_fields, put_entry, put_predicate};

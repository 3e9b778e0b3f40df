//! Predicates over the threads of a program, by number: rows that differ only in scale or in the
//! numbers of their threads are one predicate.
#![tactic(auto)]

mod atom;
mod canonical;
mod key;
pub mod laws;
mod occurring;
mod place;
mod predicate;
mod predicates;
mod share;
mod slots;
mod threads;
pub mod worked;

pub use atom::Atom;
pub use place::{Place128, PlaceEnd};
pub use predicate::Predicate;
pub use predicates::{Predicates, PushEnd};
pub use threads::Threads;

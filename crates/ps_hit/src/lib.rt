//! The minimal sets of numbers that meet each of some given sets.
#![tactic(auto)]

mod cover;
mod hits;
mod lone;
mod node;
mod search;
pub mod worked;

pub use hits::Hits;
pub use search::minimal_hits;

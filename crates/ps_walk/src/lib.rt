//! The walk over the stages of an elimination, which looks for whole numbers that satisfy rows.
#![tactic(auto)]

mod answer;
mod bound;
mod bounds;
mod ending;
mod finding;
mod integer;
pub mod laws;
mod sum;
pub mod worked;

pub use answer::Walk;
pub use integer::integer_walk;

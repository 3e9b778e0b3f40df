//! Traces of graphs, and witnesses: values and steps that lead to a failure.
#![tactic(auto)]

mod command;
mod error_trace;
mod havocs;
mod known;
pub mod laws;
mod leaving;
mod picking;
mod reached;
mod renaming;
mod replaying;
mod rows;
mod seat;
mod so_far;
mod step;
mod steps;
mod threads;
mod trace;
mod trying;
mod walk;
mod witness;
mod witnessing;
pub mod worked;

pub use command::command_of;
pub use error_trace::is_error_trace;
pub use havocs::has_few_havocs;
pub use reached::{Reached, reach};
pub use renaming::{of_thread, term_of_thread};
pub use replaying::replay;
pub use rows::trace_rows;
pub use step::Step;
pub use steps::Steps;
pub use threads::threads_of;
pub use trace::{IndexedTrace, Letter};
pub use witness::Witness;
pub use witnessing::witness_of;

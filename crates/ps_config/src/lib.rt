//! Configurations of a search: threads at locations with atoms, and which cover which.
#![tactic(auto)]

mod config;
mod few;
mod form;
pub mod laws;
mod limits;
mod order;
mod threads;
mod wide;

pub use config::{Config, MOST_ATOMS, MOST_THREADS};
pub use few::Few;
pub use limits::Limits;
pub use threads::{is_located, next_number, next_thread, thread_count, threads_in};
pub use wide::{WideName, WideStep};

//! Traces and witnesses as texts of lines: their readers and printers.
#![tactic(auto)]

mod due_thread;
mod trace_printing;
mod trace_reading;
mod witness_printing;
mod witness_reading;

pub use trace_printing::print_trace;
pub use trace_reading::{MOST_LETTERS, read_trace};
pub use witness_printing::print_witness;
pub use witness_reading::{MOST_STEPS, MOST_THREADS, read_witness};

//! Proofs as texts of lines: their reader and printer.
#![tactic(auto)]

mod limits;
mod printing;
mod proof;
mod reading;
pub mod worked;

pub use limits::{MOST_CONFIGS, MOST_ENTRIES, MOST_PREDICATES};
pub use printing::print_proof;
pub use proof::Proof;
pub use reading::read_proof;

//! Rows with their multipliers, as a text of lines: the form of what is to be refuted.
#![tactic(auto)]

mod claim;
mod printing;
mod reading;

pub use claim::Claim;
pub use printing::print_rows;
pub use reading::{MOST_ROWS, read_rows};

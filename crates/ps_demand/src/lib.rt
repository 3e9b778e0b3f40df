//! What atoms after a command demand of the atoms before it: a step back has one of each demand.
#![tactic(auto)]

mod candidate;
mod candidates;
mod demands;
pub mod laws;
mod numbering;
mod parted;
mod parting;
mod ranked;
mod renaming;

pub use candidate::Candidate;
pub use candidates::candidates_of;
pub use demands::demands_of;
pub use numbering::{numbered, pool_of};
pub use parted::Parted;
pub use parting::parted_demands;
pub use renaming::{image_of, renames};

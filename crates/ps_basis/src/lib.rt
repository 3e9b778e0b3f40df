//! The entries of a proof as a list that grows, and what traces they prove.
#![tactic(auto)]

mod basis;
mod front;
mod index;
mod key;
pub mod laws;
mod limits;
mod place;
mod shown;
pub mod worked;

pub use basis::Basis;
pub use front::Front;
pub use limits::MOST_ENTRIES;
pub use shown::Shown;

//! The check of a certificate that rows have no common whole-number solution.
#![tactic(auto)]

mod certificate;
mod past;
mod product;
mod row_lists;
mod visit;
mod walk;
mod weigh;
pub mod worked;

pub use certificate::{refutes, refutes_lists};
pub use past::Past128;
pub use row_lists::RowLists;

//! Lists as fields of plain data, which contracts see as lists.
#![tactic(auto)]

mod sequence;

pub use sequence::{Duplicate, Sequence, copies};

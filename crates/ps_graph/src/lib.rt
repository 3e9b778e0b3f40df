//! Graphs of programs, and what executions of texts and error traces of graphs are.
#![tactic(auto)]

mod edge;
mod graph;
pub mod laws;
pub mod worked;

pub use edge::{Edge, Pick};
pub use graph::Graph;

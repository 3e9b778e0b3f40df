//! The graph of a program: how its body is laid out, its limits, and that its error traces are the
//! text's failures. Definitions and their laws, and the call that makes the graph.
#![tactic(auto)]

mod alternatives;
mod command_key;
mod compile_end;
mod compiling;
mod counts;
mod draft;
mod drafts;
pub mod laws;
mod layout;
pub mod limits;
mod limits_edges;
mod limits_inside;
mod plan;
mod route;
mod routes;
mod setting;
mod starts;
mod sums;
mod table;
mod terms;
pub mod worked;

pub use compile_end::CompileEnd;
pub use compiling::compile;

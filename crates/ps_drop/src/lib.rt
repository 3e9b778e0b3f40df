//! What falls when nodes of a search are withdrawn: a node with all below it, and the nodes whose
//! links lead to a withdrawn one.
#![tactic(auto)]

mod below;
mod children;
mod links;
mod nodes;
mod pair;
pub mod worked;

pub use below::descendants;
pub use links::leaning;
pub use pair::Pair;

//! What programs of cases about proofs are about: the graph of a program, with a proof's predicates, entries and
//! configurations.
#![tactic(auto)]

mod fronts;
mod spaces;

pub use fronts::{are_tied, front_of};
pub use spaces::{Space, proof_of, space_and_rest};

//! Elimination of variables from rows: multipliers that refute them, or the sets of multiplier vectors
//! on the way.
#![tactic(auto)]

mod answer;
mod choose;
mod elimination;
mod filter;
mod first;
pub mod laws;
mod lexicographic;
mod limits;
mod next;
mod pair;
mod reduce;
mod sign;
mod stage;
mod sum;
mod support;
mod variables;
mod vector;
mod weighted;
mod width;
mod words;
pub mod worked;

pub use answer::Elim;
pub use elimination::eliminate;
pub use stage::Stage;
pub use support::Support;
pub use variables::has_few_variables;
pub use vector::Vector;

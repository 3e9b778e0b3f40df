//! Linear terms over whole numbers, and the rows `term <= 0` that are made of them.
#![tactic(auto)]

mod accumulation;
mod bound;
pub mod exact;
mod front;
pub mod laws;
mod lookup;
mod naming;
mod negation;
mod pairs;
mod place;
mod row;
mod stop;
mod substitution;
mod sums;
mod term;
mod tightening;
mod var;
mod whole;
pub mod worked;

pub use negation::negate;
pub use pairs::Pairs;
pub use row::Row;
pub use stop::Stop;
pub use substitution::substitute;
pub use sums::{add_scaled, scaled_sum};
pub use term::{Term, TermEnd};
pub use tightening::{divided, tighten};
pub use var::{Var, is_before, is_same};
pub use whole::{ceil_div, gcd};

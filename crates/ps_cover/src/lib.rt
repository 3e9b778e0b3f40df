//! Whether the threads of one configuration can be found in another, and which injection is the first.
#![tactic(auto)]

mod among;
mod counts;
mod fits;
mod images;
mod injection;
pub mod laws;
mod open;
mod partial;
mod search;
mod swaps;

pub use among::within;
pub use injection::{Injection, covers, covers_lists};

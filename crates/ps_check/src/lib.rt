//! Whether a proof shows that a program never fails, and what is wrong with one that doesn't.
#![tactic(auto)]

mod branches;
mod candidates;
mod checked;
mod configs;
mod counted;
mod covered;
mod covering;
mod entries;
mod fault;
mod holding;
mod judgement;
pub mod laws;
mod listed;
mod located;
mod starts;
mod steps;

pub use checked::check;
pub use fault::CheckFault;
pub use holding::do_entries_hold;
pub use judgement::Judgement;

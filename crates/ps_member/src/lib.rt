//! Which traces the entries of a proof prove.
#![tactic(auto)]

mod back;
mod cut;
mod forth;
mod known;
mod membership;

pub use membership::member;

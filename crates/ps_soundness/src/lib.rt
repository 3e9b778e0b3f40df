//! Why a proof is believed: closed coverings prove every error trace, for every number of threads, and what entries
//! that hold prove never runs.
#![tactic(auto)]

pub mod laws;
pub mod worked;

//! Interpolants: the predicates and entries by which a refuted trace is proved.
#![tactic(auto)]

mod bounds;
mod cut_sums;
mod cuts;
mod entry_key;
mod initial;
mod interp_end;
mod interpolation;
pub mod laws;
mod listing;
mod meeting;
mod numbering;
mod refutation;
mod standing;
mod start;
mod starting;
mod sums;
mod tripling;
mod weighing;
mod weights;
pub mod worked;

pub use interp_end::InterpEnd;
pub use interpolation::interpolate;
pub use refutation::Refutation;
pub use sums::sum_before;

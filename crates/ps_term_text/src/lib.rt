//! How variables and terms are spelled as fields of a line, one definition for all formats.
#![tactic(auto)]

mod limits;
mod pair;
mod printing;
mod term;
mod variable;

pub use printing::put_term;
pub use term::take_term;

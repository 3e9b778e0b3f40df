//! The cut of an input of several parts at its marks, which are lines that are exactly `%%`.
//!
//! An input of two parts is cut once; one of three parts is cut, and what comes after the first mark is cut again.
#![tactic(auto)]

mod cut;
pub mod laws;
mod mark;
mod parts;

pub use cut::{Cut, cut_at_mark, program_part};
pub use mark::MARK;
pub use parts::{
    MOST_PROGRAM, MOST_PROOF, MOST_WITNESS, Part, PartsEnd, ThreeParts, TwoParts, three_parts,
    two_parts,
};

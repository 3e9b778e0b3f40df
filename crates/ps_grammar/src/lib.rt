//! The grammar of programs, as definitions: the reader, the printer and what can be compiled rest on them.
//!
//! In the order to read them: `Words` (of a text), `Grammar` (a tree for each text of it), `Spelling` (its words), `Names`,
//! `Numbers` and `Declarations` (what words stand for, and how many there may be), `Trees` (the program that a text is),
//! `Fits` (which texts are programs), `Texts` (which programs are trees of texts), and `Programs` (which program some bytes
//! are).
#![tactic(auto)]

mod limits;

pub use limits::{MOST_GLOBALS, MOST_LEVELS, MOST_LOCALS, MOST_ROWS};

//! Printing programs.
//!
//! Its definitions, in the order to read them: `Canonical` (the text of the grammar that a tree is printed as), `Printed`
//! (its bytes) and `ReadBack` (what is printed is the same program, but for places).
#![tactic(auto)]

mod print_blocks;
mod print_conds;
mod print_sums;
mod print_words;
mod printer;
mod printing;

pub use printing::print_program;

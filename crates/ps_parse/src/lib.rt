//! Reading programs, with the first refusal.
//!
//! Its definitions, in the order to read them: `Kinds` (of words), `Reads` (where no text of the grammar goes on), `Causes`
//! (why each other refusal stands at a word, and what refuses words), `Texts` (both of bytes), `Promises` (what a call answers)
//! and `Refusals` (the lines that tell refusals). `Inner` is for private clauses alone: a reading function for each rule, and
//! what is kept of words to find their causes.
#![tactic(auto)]

mod blocks;
mod check;
mod conds;
mod cursor;
mod deciding;
mod declared;
mod items;
pub mod laws;
mod level;
mod levels;
mod parser;
mod passed;
mod read_refusal;
mod reading;
mod refusal_lines;
mod signs;
mod spot;
mod sums;
mod word;
pub mod worked;

pub use read_refusal::ReadRefusal;
pub use reading::read_program;
pub use refusal_lines::refusal_line;

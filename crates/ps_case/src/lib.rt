//! What a program of cases is made of: the lines that its cases are written in, the texts in them, the tally of what ran, and
//! how programs, terms and faults stand in them. docs/TESTS.md has the form of lines.
#![tactic(auto)]

mod case;
mod cases;
mod escapes;
mod names;
mod programs;
mod refusals;
mod tally;
mod terms;
mod words;

pub use case::Case;
pub use cases::Cases;
pub use programs::graph_of;
pub use refusals::form_refusal;
pub use terms::{put_term, put_variable, read_term, read_variable};
pub use words::{
    number_and_rest, put_number, read_number, sameness, text_of_bytes, truth, two_parts, word,
};

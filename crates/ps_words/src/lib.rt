//! The words of the command line: which mode they ask for, with which limits.
#![tactic(auto)]

mod command;
pub mod laws;
mod mode;
mod option_name;
mod words;
mod words_end;
pub mod worked;

pub use mode::Mode;
pub use option_name::OptionName;
pub use words::{Words, read_words};
pub use words_end::WordsEnd;

//! Questions: which triples the known predicates give over few atoms.
#![tactic(auto)]

mod answer;
mod answering;
mod arranging;
mod choice;
mod choosing;
pub mod laws;
mod pattern;
mod question;
mod refuting;
mod threads;
mod trial;
mod walk;
pub mod worked;

pub use answer::Answer;
pub use answering::answer_question;
pub use pattern::Pattern;
pub use question::Question;

//! What the program does: each mode as a call over any source and sink, and the top call `run`, which reads the words.
#![tactic(auto)]

mod answer;
mod check;
mod check_texts;
mod frame;
mod graphs;
mod input;
mod judge;
pub mod laws;
mod member;
mod program;
mod refute;
mod replay;
mod status;
mod texts;
pub mod worked;

pub use check::check_run;
pub use input::MOST_BYTES;
pub use member::member_run;
pub use program::run;
pub use refute::refute_run;
pub use replay::replay_run;
pub use status::Status;

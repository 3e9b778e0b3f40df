//! Commands: what the edge of a graph does to the values of one thread, and the states that it runs on.
#![tactic(auto)]

mod assignments;
mod command;
mod evaluation;
mod fitting;
mod form_builder;
mod forming;
pub mod laws;
mod look_up;
mod op;
mod put;
mod run_end;
mod runner;
mod running;
mod setting;
mod starting;
mod state;
mod symbolic_form;
mod view;
pub mod worked;

pub use assignments::Assignments;
pub use command::Command;
pub use fitting::{can_run, is_sized};
pub use forming::symbolic;
pub use op::Op;
pub use run_end::RunEnd;
pub use runner::Runner;
pub use running::run;
pub use setting::Setting;
pub use starting::is_initial_state;
pub use state::State;
pub use symbolic_form::SymbolicForm;

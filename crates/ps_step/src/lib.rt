//! Steps back from configurations: the smallest configurations before one, and which are accepting.
#![tactic(auto)]

mod accepted;
mod back;
mod expand_end;
mod expanded;
mod expansion;
mod found;
pub mod laws;
mod only;
mod sizes;
mod standing;
mod step;
pub mod worked;

pub use accepted::accepting;
pub use back::step_to;
pub use expand_end::{ExpandEnd, MOST_SETS};
pub use expanded::expand;
pub use expansion::{Expansion, Successor};
pub use standing::stands;

//! Programs of threads as syntax trees, and what their sums and conditions are worth.
#![tactic(auto)]

mod cond;
mod global_decl;
mod limit_name;
mod name;
mod program;
mod relation;
mod stmt;
mod sum;

pub use cond::{Cond, Test};
pub use global_decl::GlobalDecl;
pub use limit_name::LimitName;
pub use name::Name;
pub use program::Program;
pub use relation::{Relation, Sign};
pub use stmt::{Stmt, StmtKind};
pub use sum::Sum;

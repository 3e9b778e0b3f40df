//! Programs of threads: their syntax trees, reading and printing them.
#![tactic(auto)]

pub use ps_parse::{ReadRefusal, read_program, refusal_line};
pub use ps_print::print_program;
pub use ps_tree::{
    Cond, GlobalDecl, LimitName, Name, Program, Relation, Sign, Stmt, StmtKind, Sum, Test,
};

//! Answers of a walk.
ghost use Rattle.std.specs.Prelude.{◌≡◌, IfOk};

use ps_list::Sequence;
use ps_term::Var;
use std::alloc::{AllocError, Global};

/// What a walk comes to.
#[derive(Debug, Drop)]
pub enum Walk {
    /// Whole numbers that satisfy all rows, one for each stage's variable, in the order of the stages.
    Values(Sequence<(Var, i128)>),
    /// With the values of the later variables, the rows of a stage leave its variable no whole number: the lower bound
    /// is above the upper one.
    NoInteger {
        variable: Var,
        lower: i128,
        upper: i128,
    },
    /// Each stage gave a value, but the given row of this number, counted from 0, doesn't hold of them. It is the first
    /// such row.
    Misses {
        row: u32,
    },
    /// A product, a sum or a bound lies outside `i128`.
    Past128,
}

impl Walk {
    /// A copy, in time and memory of the number of values.
    pub fn copy(&self, alloc: Global) -> Result<Walk, AllocError>
        ensures { IfOk result (λ answer. answer ≡ self.now) }
    {
        match self {
            Walk::Values(values) => Ok(Walk::Values(values.copy(alloc)?)),
            Walk::NoInteger {
                variable,
                lower,
                upper,
            } => Ok(Walk::NoInteger {
                variable: *variable,
                lower: *lower,
                upper: *upper,
            }),
            Walk::Misses { row } => Ok(Walk::Misses { row: *row }),
            Walk::Past128 => Ok(Walk::Past128),
        }
    }
}

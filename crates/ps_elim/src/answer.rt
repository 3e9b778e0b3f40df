//! Answers of an elimination.
ghost use Rattle.std.specs.Prelude.{◌≡◌, IfOk};

use crate::stage::Stage;
use ps_list::Sequence;
use std::alloc::{AllocError, Global};

/// What comes of eliminating all variables of some rows.
#[derive(Debug, Drop)]
pub enum Elim {
    /// These multipliers, one for each row, refute the rows.
    Refuted(Sequence<u128>),
    /// No vector refutes the rows: the stages, one for each variable in ascending order.
    Stages(Sequence<Stage>),
    /// The making of the set after this stage, counted from 0, has a product or a sum outside `i128`.
    Past128 { stage: u32 },
    /// The set after this stage, counted from 0, would be made of `count` vectors, which are too many.
    TooWide { stage: u32, count: u64 },
}

impl Elim {
    /// A copy, in time and memory of all that stands in it.
    pub fn copy(&self, alloc: Global) -> Result<Elim, AllocError>
        ensures { IfOk result (λ answer. answer ≡ self.now) }
    {
        match self {
            Elim::Refuted(multipliers) => Ok(Elim::Refuted(multipliers.copy(alloc)?)),
            Elim::Stages(stages) => Ok(Elim::Stages(stages.copy(alloc)?)),
            Elim::Past128 { stage } => Ok(Elim::Past128 { stage: *stage }),
            Elim::TooWide { stage, count } => Ok(Elim::TooWide {
                stage: *stage,
                count: *count,
            }),
        }
    }
}

//! What a table of predicates answers of a row.
ghost use Rattle.std.specs.Prelude.{◌≡◌, IfOk};

use crate::predicate::Predicate;
use crate::threads::Threads;
use std::alloc::{AllocError, Global};
use thiserror::Error;

/// Where a row stands in a table of predicates.
#[derive(Debug, Drop)]
pub enum Place128 {
    /// It has no variable and all values satisfy it.
    Trivial,
    /// It has no variable and no values satisfy it.
    False,
    /// Its canonical predicate is in the table: the least number, and the threads in its slots.
    Known {
        number: u32,
        threads: Threads,
    },
    /// Its canonical predicate, which isn't in the table, and the threads in its slots.
    New {
        predicate: Predicate,
        threads: Threads,
    },
}

/// Why a row has no place.
#[derive(Debug, Drop, Error)]
pub enum PlaceEnd {
    /// More than 4 threads occur in the row.
    #[error("{count} threads occur in a row, more than 4")]
    Arity { count: u32 },
    /// The row is new, and the table has 128 predicates.
    #[error("the table of predicates is full")]
    Full,
    /// No memory was left.
    #[error("out of memory")]
    Memory(AllocError),
}

impl Place128 {
    /// A copy, in time and memory of the threads and of a predicate's pairs.
    pub fn copy(&self, alloc: Global) -> Result<Place128, AllocError>
        ensures { IfOk result (λ place. place ≡ self.now) }
    {
        match self {
            Place128::Trivial => Ok(Place128::Trivial),
            Place128::False => Ok(Place128::False),
            Place128::Known { number, threads } => Ok(Place128::Known {
                number: *number,
                threads: threads.copy(alloc)?,
            }),
            Place128::New { predicate, threads } => Ok(Place128::New {
                predicate: predicate.copy(alloc)?,
                threads: threads.copy(alloc)?,
            }),
        }
    }
}

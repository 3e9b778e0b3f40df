// The set of vectors with which an elimination begins.
ghost use Rattle.std.specs.Prelude.{◌≡◌, ◌<◌, ◌^◌, All, length, IfOk};
ghost use Rattle.ps_elim.specs.Stages.{first_set};
ghost use Rattle.ps_elim.specs.inner.Weighing.{IsWeighted, vectors_of};

use crate::reduce::with_support;
use crate::vector::Vector;
use crate::weighted::Weighted;
use ps_term::Row;
use std::alloc::{AllocError, Global};

// For each row the vector with 1 at its place and 0 elsewhere.
pub(crate) fn first_set(alloc: Global, rows: &[Row]) -> Result<Vec<Weighted>, AllocError>
    requires { length rows.now < 2 ^ 32 }
    ensures weighted { IfOk result (λ set. All (IsWeighted rows.now) set.items) }
    ensures vectors { IfOk result (λ set. vectors_of set.items ≡ first_set rows.now) }
{
    let mut set = Vec::with_capacity(alloc, rows.len())?;
    for (place, row) in rows.iter().enumerate() {
        let vector = Vector::unit(alloc, place, rows.len())?;
        set.push(with_support(alloc, vector, row.copy(alloc)?)?)?;
    }
    Ok(set)
}

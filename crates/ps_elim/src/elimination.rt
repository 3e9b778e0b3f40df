//! The elimination of all variables of rows.
ghost use Rattle.std.specs.Prelude.{◌≡◌, ◌<◌, ◌^◌, ℤ, All, length, map, IfOk};
ghost use Rattle.ps_elim.specs.Elimination.{IsElimination};
ghost use Rattle.ps_elim.specs.Refutation.{IfRefuted, IfStages};
ghost use Rattle.ps_elim.specs.Stages.{variables};
ghost use Rattle.ps_elim.specs.Vectors.{AreSums};
ghost use Rattle.ps_elim.specs.inner.Weighing.{vectors_of};
ghost use Rattle.ps_farkas.specs.Refutes.{Refutes};
ghost use Rattle.ps_term.specs.declared.var.Var.{Var};
ghost use Rattle.ps_term.specs.Row.{Holds};

use crate::answer::Elim;
use crate::choose::least_refutation;
use crate::first::first_set;
use crate::limits::MOST_VECTORS;
use crate::next::{Next, next_set};
use crate::stage::Stage;
use crate::variables::variables;
use crate::weighted::Weighted;
use crate::width::first_width;
use ps_list::Sequence;
use ps_term::{Row, Var};
use std::alloc::{AllocError, Global};

/// Eliminates the variables of the rows in ascending order. The first set of vectors has for each row the
/// one with 1 at its place. A next set has the vectors whose row, the sum of the given rows weighted by
/// the entries, has coefficient 0 at the variable, and for each pair of opposite coefficients the least sum
/// in which it vanishes, divided by what the entries have in common. Of these, the ones stay whose support
/// strictly contains that of no other.
///
/// It is `Refuted` with the lexicographically least vector of the last set whose row has a positive
/// constant, or `Stages` where there is none. It is `TooWide` where a set would be made of more than 2,048
/// vectors, which is told before any of them is made, and `Past128` where a product or a sum of its
/// making lies outside `i128`.
///
/// The memory is that of the entries that aren't 0, and of the rows, in all sets. A set takes time of both, and
/// of comparisons of supports, 64 places at a time, of which each newly made vector has one with each other
/// vector. Where the first set after the unit vectors would be too wide, that is told by the coefficients
/// alone, and no vector is made.
pub fn eliminate(alloc: Global, rows: &[Row]) -> Result<Elim, AllocError>
    requires few_rows { length rows.now < 2 ^ 32 }
    requires few_variables { length (variables rows.now) < 2 ^ 32 }
    ensures answer { IfOk result (IsElimination rows.now) }
    ensures refuted { IfOk result (λ answer. IfRefuted answer (Refutes rows.now)) }
    ensures sound { IfOk result (λ answer. IfRefuted answer
        (λ v. (values : Var → ℤ) → ¬ All (Holds values) rows.now)) }
    ensures sums { IfOk result (λ answer. IfStages answer
        (λ stages. All (λ stage. AreSums rows.now stage.vectors stage.rows) stages)) }
{
    let variables = variables(alloc, rows)?;
    let width = first_width(rows, &variables);
    if width > MOST_VECTORS {
        return Ok(Elim::TooWide {
            stage: 0,
            count: width,
        });
    }
    let mut stages = Vec::with_capacity(alloc, variables.len())?;
    let mut set = first_set(alloc, rows)?;
    for (number, variable) in variables.iter().enumerate() {
        match next_set(alloc, rows, set.as_slice(), *variable)? {
            Next::Set(next) => {
                let stage = stage_of(alloc, *variable, set)?;
                stages.push(stage)?;
                set = next;
            }
            Next::Past128 => return Ok(Elim::Past128 {
                stage: number as u32,
            }),
            Next::TooWide(count) => {
                return Ok(Elim::TooWide {
                    stage: number as u32,
                    count,
                });
            }
        }
    }
    match least_refutation(set.as_slice()) {
        Some(least) => Ok(Elim::Refuted(Sequence::from_list(least.vector.to_list(alloc)?))),
        None => Ok(Elim::Stages(Sequence::from_list(stages))),
    }
}

// The stage of the variable with this set.
fn stage_of(alloc: Global, variable: Var, set: Vec<Weighted>) -> Result<Stage, AllocError>
    ensures variable { IfOk result (λ stage. stage.variable ≡ variable) }
    ensures vectors { IfOk result (λ stage. stage.vectors ≡ vectors_of set.items) }
    ensures rows { IfOk result (λ stage. stage.rows ≡ map (λ w. w.row) set.items) }
{
    let mut vectors = Vec::with_capacity(alloc, set.len())?;
    let mut rows = Vec::with_capacity(alloc, set.len())?;
    for weighted in set {
        let Weighted {
            vector,
            row,
            support: _,
        } = weighted;
        vectors.push(vector)?;
        rows.push(row)?;
    }
    Ok(Stage {
        variable,
        vectors: Sequence::from_list(vectors),
        rows: Sequence::from_list(rows),
    })
}

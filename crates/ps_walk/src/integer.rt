//! The integer walk.
ghost use Rattle.std.specs.Prelude.{◌≡◌, ◌<◌, ◌^◌, All, IfOk, length, map};
ghost use Rattle.ps_term.specs.Row.{Holds};
ghost use Rattle.ps_elim.specs.Ascending.{Ascend};
ghost use Rattle.ps_walk.specs.Answer.{IsWalk, OnValues};
ghost use Rattle.ps_walk.specs.Values.{value_found};

use crate::answer::Walk;
use crate::bounds::find;
use crate::ending::{Ending, ending_of};
use crate::finding::Finding;
use ps_elim::Stage;
use ps_list::Sequence;
use ps_term::{Row, Var};
use std::alloc::{AllocError, Global};
use std::collections::BTreeMap;

/// Looks for whole numbers that satisfy the rows, by the stages of their elimination.
///
/// The stages are taken from the last to the first. In each the rows with its variable bound that variable, with the
/// values found so far put in; a variable without a value counts as 0. Its value is 0 where the bounds allow that, or
/// else the bound nearest to 0. Where they allow no number the answer is `NoInteger`. With all values found the given
/// rows are evaluated in order, and the first that doesn't hold is `Misses`. The first product, sum or bound outside
/// `i128` makes the answer `Past128`, in a stage also where its bounds allow no number.
///
/// The time is that of the pairs of all rows, each with a search in a map of the values so far; the memory is that of
/// one value for each stage.
pub fn integer_walk(alloc: Global, rows: &[Row], stages: &[Stage]) -> Result<Walk, AllocError>
    requires { length rows.now < 2 ^ 32 }
    ensures answer { IfOk result (IsWalk rows.now stages.now) }
    ensures satisfied { IfOk result (λ walk. OnValues walk (λ values.
        All (Holds (value_found values)) rows.now)) }
    ensures variables { IfOk result (λ walk. OnValues walk (λ values.
        map (λ p. p.0) values ≡ map (λ s. s.variable) stages.now)) }
    ensures ascending { IfOk result (λ walk. OnValues walk (λ values.
        Ascend (map (λ s. s.variable) stages.now) → Ascend (map (λ p. p.0) values))) }
{
    let mut found = BTreeMap::new(alloc);
    let mut values: Vec<(Var, i128)> = Vec::with_capacity(alloc, stages.len())?;
    let mut left = stages.len();
    'walking: while left > 0 {
        left -= 1;
        let stage = &stages[left];
        match find(&found, stage.variable, stage.rows.as_slice()) {
            Finding::Value(value) => {
                found.insert(stage.variable, value)?;
                values.push((stage.variable, value))?;
            }
            Finding::Nothing { lower, upper } => {
                return Ok(Walk::NoInteger {
                    variable: stage.variable,
                    lower,
                    upper,
                });
            }
            Finding::Past128 => return Ok(Walk::Past128),
        }
    }
    values.reverse();
    match ending_of(&found, rows) {
        Ending::Holds => Ok(Walk::Values(Sequence::from_list(values))),
        Ending::Misses(row) => Ok(Walk::Misses { row }),
        Ending::Past128 => Ok(Walk::Past128),
    }
}

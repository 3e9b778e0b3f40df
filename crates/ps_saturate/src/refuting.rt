// Whether a set of atoms is refuted before a command and a post.
ghost use Rattle.std.specs.Prelude.{◌≡◌, ◌<◌, ◌^◌, ◌++◌, ℕ, List, All, IfNone, IfOk, IfSome, IsTrue, OnOk, length};
ghost use Rattle.ps_elim.specs.Elimination.{IsElimination};
ghost use Rattle.ps_elim.specs.Stages.{variables};
ghost use Rattle.ps_elim.specs.declared.answer.Elim.TheVariants.{Refuted};
ghost use Rattle.ps_farkas.specs.Refutes.{AllSumsFit, Refutes};
ghost use Rattle.ps_saturate.specs.inner.Trials.{IsChoiceOf, IsReady, IsRefutedIn, ShowsSet, atoms_of, pointed_to, rows_of};
ghost use Rattle.ps_triple.specs.Ascending.{ascend};

use crate::choice::Choice;
use crate::trial::Trial;
use ps_atom::Atom;
use ps_elim::{Elim, eliminate, has_few_variables};
use ps_farkas::refutes;
use ps_list::Sequence;
use ps_term::Row;
use ps_triple::Triple;
use std::alloc::{AllocError, Global};

// So many rows are too many.
const TOO_MANY_ROWS: usize = 1 << 32;

// The triple that shows that the set is refuted, if it is. Rows of more numbers than 32 bits can count are answered as want
// of memory, which so many are.
pub(crate) fn refutation(
    alloc: Global,
    trial: &Trial<'_>,
    set: &[&Choice],
) -> Result<Option<Triple>, AllocError>
    requires ready { IsReady trial.now }
    requires choices { All (IsChoiceOf trial.now) (pointed_to set.now) }
    requires ascends { IsTrue (ascend (atoms_of (pointed_to set.now))) }
    ensures refuted { IfOk result (λ found. IfSome found
        (ShowsSet trial.now (atoms_of (pointed_to set.now)))) }
    ensures unrefuted { IfOk result (λ found. IfNone found
        (¬ IsRefutedIn trial.now (atoms_of (pointed_to set.now)))) }
{
    let rows = rows_of(alloc, set, trial.rows.as_slice())?;
    if rows.len() >= TOO_MANY_ROWS || !has_few_variables(rows.as_slice()) {
        return Err(AllocError);
    }
    match multipliers(alloc, rows.as_slice())? {
        Some(lambda) => Ok(Some(Triple {
            pre: Sequence::from_list(atoms_of(alloc, set)?),
            command: trial.question.command,
            post: trial.post.copy(alloc)?,
            lambda,
        })),
        None => Ok(None),
    }
}

// The multipliers with which the elimination refutes the rows, unless a sum in row order leaves 128 bits.
fn multipliers(alloc: Global, rows: &[Row]) -> Result<Option<Sequence<u128>>, AllocError>
    requires few_rows { length rows.now < 2 ^ 32 }
    requires few_variables { length (variables rows.now) < 2 ^ 32 }
    ensures refuted { IfOk result (λ found. IfSome found (λ lambda.
        IsElimination rows.now (Refuted lambda))) }
    ensures refutes { IfOk result (λ found. IfSome found (Refutes rows.now)) }
    ensures fits { IfOk result (λ found. IfSome found (AllSumsFit rows.now)) }
    ensures unrefuted { IfOk result (λ found. IfNone found ((lambda : List ℕ)
        → IsElimination rows.now (Refuted lambda) → ¬ AllSumsFit rows.now lambda)) }
{
    match eliminate(alloc, rows)? {
        Elim::Refuted(lambda) => Ok(within_range(rows, lambda)),
        Elim::Stages(_) => Ok(None),
        Elim::Past128 { stage: _ } => Ok(None),
        Elim::TooWide { stage: _, count: _ } => Ok(None),
    }
}

// The multipliers, unless a sum in row order leaves 128 bits.
fn within_range(rows: &[Row], lambda: Sequence<u128>) -> Option<Sequence<u128>>
    requires { Refutes rows.now lambda }
    ensures same { IfSome result (λ same. same ≡ lambda) }
    ensures fits { IfSome result (AllSumsFit rows.now) }
    ensures past { IfNone result (¬ AllSumsFit rows.now lambda) }
{
    match refutes(rows, lambda.as_slice()) {
        Ok(_) => Some(lambda),
        Err(_) => None,
    }
}

// The rows of the atoms, and then the rows that all sets have.
fn rows_of(alloc: Global, set: &[&Choice], common: &[Row]) -> Result<Vec<Row>, AllocError>
    ensures { IfOk result (λ rows. rows.items ≡ rows_of (pointed_to set.now) ++ common.now) }
{
    let mut rows = Vec::with_capacity(alloc, set.len() + common.len())?;
    for choice in set {
        rows.push(choice.row.copy(alloc)?)?;
    }
    push_copies(alloc, &mut rows, common)?;
    Ok(rows)
}

fn push_copies(alloc: Global, rows: &mut Vec<Row>, common: &[Row]) -> Result<(), AllocError>
    ensures { OnOk result (rows.new.items ≡ rows.old.items ++ common.now) }
{
    for row in common {
        rows.push(row.copy(alloc)?)?;
    }
    Ok(())
}

fn atoms_of(alloc: Global, set: &[&Choice]) -> Result<Vec<Atom>, AllocError>
    ensures { IfOk result (λ atoms. atoms.items ≡ atoms_of (pointed_to set.now)) }
{
    let mut atoms = Vec::with_capacity(alloc, set.len())?;
    for choice in set {
        atoms.push(choice.atom.copy(alloc)?)?;
    }
    Ok(atoms)
}

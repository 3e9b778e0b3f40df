// The set of vectors that comes after one variable is eliminated.
ghost use Rattle.std.specs.Prelude.{◌≡◌, ◌≤◌, ◌<◌, ◌++◌, ◌^◌, List, All, length, map, IfOk, OnOk, IsErrOf};
ghost use Rattle.ps_elim.specs.Combining.{CombinationFits, all_combined, combined};
ghost use Rattle.ps_elim.specs.inner.Antichains.{IsAntichain};
ghost use Rattle.ps_elim.specs.inner.Weighing.{AllPairsFit, ArePairable, IsNextSet, IsPairable, IsWeighted, pointed_to, vectors_of};
ghost use Rattle.ps_elim.specs.declared.sign.Sign.TheVariants.{Positive, Negative};
ghost use Rattle.ps_term.specs.declared.row.Row.{Row};

use crate::filter::kept;
use crate::limits::MOST_VECTORS;
use crate::pair::combined;
use crate::sign::{Sign, with_sign};
use crate::weighted::Weighted;
use ps_term::{Row, TermEnd, Var};
use std::alloc::{AllocError, Global};

// What comes after a set of vectors.
#[derive(Debug, Drop)]
pub(crate) enum Next {
    // The next set.
    Set(Vec<Weighted>),
    // A product or a sum of its making lies outside `i128`.
    Past128,
    // It would be made of so many vectors.
    TooWide(u64),
}

// The set that comes after the variable is eliminated. The given rows only say for the proof of which
// rows the vectors are.
pub(crate) fn next_set(
    alloc: Global,
    _given: &[Row],
    set: &[Weighted],
    variable: Var,
) -> Result<Next, AllocError>
    ghost rows: { List Row }
    requires weighted { All (IsWeighted rows) set.now }
    requires few { length set.now < 2 ^ 32 }
    requires apart { IsAntichain (vectors_of set.now) }
    ensures { IfOk result (IsNextSet rows variable (vectors_of set.now)) }
{
    let zeros = with_sign(alloc, set, variable, Sign::Zero)?;
    let positives = with_sign(alloc, set, variable, Sign::Positive)?;
    let negatives = with_sign(alloc, set, variable, Sign::Negative)?;
    let width = zeros.len() as u64 + positives.len() as u64 * negatives.len() as u64;
    if width > MOST_VECTORS {
        return Ok(Next::TooWide(width));
    }
    let made = copies(alloc, zeros.as_slice(), width as usize)?;
    match with_pairs(
        alloc,
        variable,
        positives.as_slice(),
        negatives.as_slice(),
        made,
    ) {
        Ok(made) => Ok(Next::Set(kept(alloc, made, zeros.len())?)),
        Err(TermEnd::Past128) => Ok(Next::Past128),
        Err(TermEnd::Memory(end)) => Err(end),
    }
}

// Copies of the vectors, with room for so many.
fn copies(alloc: Global, list: &[&Weighted], room: usize) -> Result<Vec<Weighted>, AllocError>
    ensures { IfOk result (λ copies. copies.items ≡ pointed_to list.now) }
{
    let mut copies = Vec::with_capacity(alloc, room)?;
    for weighted in list {
        copies.push(weighted.copy(alloc)?)?;
    }
    Ok(copies)
}

// Adds the vectors of all pairs to those made so far.
fn with_pairs(
    alloc: Global,
    variable: Var,
    positives: &[&Weighted],
    negatives: &[&Weighted],
    made: Vec<Weighted>,
) -> Result<Vec<Weighted>, TermEnd>
    ghost rows: { List Row }
    requires positive { ArePairable rows Positive variable (pointed_to positives.now) }
    requires negative { ArePairable rows Negative variable (pointed_to negatives.now) }
    requires made { All (IsWeighted rows) made.items }
    ensures weighted { IfOk result (λ all. All (IsWeighted rows) all.items) }
    ensures vectors { IfOk result (λ all. vectors_of all.items ≡ vectors_of made.items
        ++ all_combined rows variable (vectors_of (pointed_to positives.now))
        (vectors_of (pointed_to negatives.now))) }
    ensures fits { OnOk result
        (AllPairsFit rows variable (vectors_of (pointed_to positives.now))
        (vectors_of (pointed_to negatives.now))) }
    ensures past { IsErrOf result TermEnd.Past128
        → ¬ AllPairsFit rows variable (vectors_of (pointed_to positives.now))
        (vectors_of (pointed_to negatives.now)) }
{
    let mut all = made;
    for positive in positives {
        all = with_pairs_of(alloc, variable, positive, negatives, all)?;
    }
    Ok(all)
}

// Adds the vectors of the pairs of this first one.
fn with_pairs_of(
    alloc: Global,
    variable: Var,
    positive: &Weighted,
    negatives: &[&Weighted],
    made: Vec<Weighted>,
) -> Result<Vec<Weighted>, TermEnd>
    ghost rows: { List Row }
    requires positive { IsPairable rows Positive variable positive.now }
    requires negative { ArePairable rows Negative variable (pointed_to negatives.now) }
    requires made { All (IsWeighted rows) made.items }
    ensures weighted { IfOk result (λ all. All (IsWeighted rows) all.items) }
    ensures vectors { IfOk result (λ all. vectors_of all.items ≡ vectors_of made.items
        ++ map (combined rows variable positive.now.vector)
        (vectors_of (pointed_to negatives.now))) }
    ensures fits { OnOk result
        (All (CombinationFits rows variable positive.now.vector)
        (vectors_of (pointed_to negatives.now))) }
    ensures past { IsErrOf result TermEnd.Past128
        → ¬ All (CombinationFits rows variable positive.now.vector)
        (vectors_of (pointed_to negatives.now)) }
{
    let mut all = made;
    for negative in negatives {
        all.push(combined(alloc, variable, positive, negative)?)
            .map_err(|_| TermEnd::Memory(AllocError))?;
    }
    Ok(all)
}

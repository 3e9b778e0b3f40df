// The vectors that stay for their supports.
ghost use Rattle.std.specs.Prelude.{◌≡◌, ◌≤◌, ◌<◌, List, All, length, take, IfOk};
ghost use Rattle.ps_elim.specs.Supports.{is_new_after, kept, stays_beside};
ghost use Rattle.ps_elim.specs.inner.Antichains.{IsAntichain};
ghost use Rattle.ps_elim.specs.inner.Marking.{differs, marked, stays_at, stays_by, staying};
ghost use Rattle.ps_elim.specs.inner.Weighing.{IsWeighted, vectors_of};
ghost use Rattle.ps_term.specs.declared.row.Row.{Row};

use crate::weighted::Weighted;
use std::alloc::{AllocError, Global};

// Those whose support strictly contains that of no other one, and of several with one support the least. Of so many
// first ones it is known that no support is inside that of another.
pub(crate) fn kept(
    alloc: Global,
    made: Vec<Weighted>,
    known: usize,
) -> Result<Vec<Weighted>, AllocError>
    ghost rows: { List Row }
    requires weighted { All (IsWeighted rows) made.items }
    requires few { known ≤ length made.items }
    requires known { IsAntichain (take known (vectors_of made.items)) }
    ensures weighted { IfOk result (λ list. All (IsWeighted rows) list.items) }
    ensures vectors { IfOk result (λ list. vectors_of list.items ≡ kept (vectors_of made.items)) }
    ensures few { IfOk result (λ list. length list.items ≤ length made.items) }
{
    let marks = marks(alloc, made.as_slice(), known)?;
    marked(alloc, made, marks.as_slice())
}

// For each vector whether it stays.
fn marks(alloc: Global, made: &[Weighted], known: usize) -> Result<Vec<bool>, AllocError>
    ghost rows: { List Row }
    requires weighted { All (IsWeighted rows) made.now }
    requires few { known ≤ length made.now }
    requires known { IsAntichain (take known (vectors_of made.now)) }
    ensures { IfOk result (λ marks. marks.items ≡ staying (vectors_of made.now)) }
{
    let mut marks = Vec::with_capacity(alloc, made.len())?;
    for at in 0..made.len() {
        marks.push(stays(made, known, at))?;
    }
    Ok(marks)
}

// Those that are marked, in their order.
fn marked(alloc: Global, list: Vec<Weighted>, marks: &[bool]) -> Result<Vec<Weighted>, AllocError>
    requires { length marks.now ≡ length list.items }
    ensures { IfOk result (λ some. some.items ≡ marked marks.now list.items) }
{
    let mut some = Vec::with_capacity(alloc, list.len())?;
    let mut at = 0;
    for weighted in list {
        let stays = marks[at];
        at += 1;
        if !stays {
            continue;
        }
        some.push(weighted)?;
    }
    Ok(some)
}

// Whether the vector of this place stays. The first ones stay beside one another.
fn stays(made: &[Weighted], known: usize, at: usize) -> bool
    ghost rows: { List Row }
    requires weighted { All (IsWeighted rows) made.now }
    requires few { known ≤ length made.now }
    requires known { IsAntichain (take known (vectors_of made.now)) }
    requires within { at < length made.now }
    ensures { result ≡ stays_at (vectors_of made.now) at }
{
    if at < known {
        stays_beside(&made[known..], &made[at])
    } else {
        stays_at(made, at)
    }
}

// Whether the vector of this place stays, beside all others.
fn stays_at(made: &[Weighted], at: usize) -> bool
    ghost rows: { List Row }
    requires weighted { All (IsWeighted rows) made.now }
    requires within { at < length made.now }
    ensures { result ≡ stays_at (vectors_of made.now) at }
{
    let weighted = &made[at];
    let before = &made[..at];
    let after = &made[at + 1..];
    if !stays_beside(before, weighted) {
        return false;
    }
    if !stays_beside(after, weighted) {
        return false;
    }
    is_new_after(before, weighted)
}

fn stays_beside(others: &[Weighted], weighted: &Weighted) -> bool
    ghost rows: { List Row }
    requires others { All (IsWeighted rows) others.now }
    requires weighted { IsWeighted rows weighted.now }
    ensures { result ≡ stays_beside (vectors_of others.now) weighted.now.vector }
{
    for other in others {
        if !stays_by(other, weighted) {
            return false;
        }
    }
    true
}

// Whether the vector stays where this other one is there.
fn stays_by(other: &Weighted, weighted: &Weighted) -> bool
    ghost rows: { List Row }
    requires other { IsWeighted rows other.now }
    requires weighted { IsWeighted rows weighted.now }
    ensures { result ≡ stays_by weighted.now.vector other.now.vector }
{
    if !other.support.inside(&weighted.support) {
        return true;
    }
    if !weighted.support.inside(&other.support) {
        return false;
    }
    !other.vector.is_less(&weighted.vector)
}

fn is_new_after(others: &[Weighted], weighted: &Weighted) -> bool
    ghost rows: { List Row }
    requires others { All (IsWeighted rows) others.now }
    requires weighted { IsWeighted rows weighted.now }
    ensures { result ≡ is_new_after (vectors_of others.now) weighted.now.vector }
{
    for other in others {
        if !differs(other, weighted) {
            return false;
        }
    }
    true
}

// Whether the two are different vectors; entries are compared only where the supports are the same.
fn differs(other: &Weighted, weighted: &Weighted) -> bool
    ghost rows: { List Row }
    requires other { IsWeighted rows other.now }
    requires weighted { IsWeighted rows weighted.now }
    ensures { result ≡ differs weighted.now.vector other.now.vector }
{
    if !other.support.is_same(&weighted.support) {
        return true;
    }
    other.vector.is_less(&weighted.vector) || weighted.vector.is_less(&other.vector)
}

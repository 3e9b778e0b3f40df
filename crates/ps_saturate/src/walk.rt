// The walk over the sets of a size.
ghost use Rattle.std.specs.Prelude.{◌≡◌, ◌↔◌, ◌++◌, ◌∷◌, [], All, Contains, IfOk, IsTrue, nat_lt, not};
ghost use Rattle.std.specs.List.{list_any};
ghost use Rattle.std.specs.List.Sorted.{IsStrictlySortedBy};
ghost use Rattle.ps_atom.specs.Atoms.{atom_cmp};
ghost use Rattle.ps_saturate.specs.inner.Choosing.{after_all, choices};
ghost use Rattle.ps_saturate.specs.inner.Trials.{AreTried, IsBlocked, IsChoiceOf, IsReady, IsTried, atoms_of, is_wanted, pointed_to};
ghost use Rattle.ps_triple.specs.Ascending.{ascend};

use crate::choice::Choice;
use crate::refuting::refutation;
use crate::trial::Trial;
use ps_atom::Atom;
use ps_triple::Triple;
use std::alloc::{AllocError, Global};

// Tries the sets that have these atoms and so many more of the rest, in their order, after what was found before. Where a
// part of these atoms was found, none of the sets needs to be tried.
pub(crate) fn walk<'a>(
    alloc: Global,
    trial: &Trial<'_>,
    set: &[&'a Choice],
    rest: &'a [Choice],
    more: usize,
    found: Vec<Triple>,
) -> Result<Vec<Triple>, AllocError>
    requires ready { IsReady trial.now }
    requires choices { All (IsChoiceOf trial.now) (pointed_to set.now) }
    requires rest { All (IsChoiceOf trial.now) rest.now }
    requires ascends { IsStrictlySortedBy atom_cmp
        (atoms_of (pointed_to set.now) ++ atoms_of rest.now) }
    ensures { IfOk result (λ new. AreTried trial.now
        (after_all (atoms_of (pointed_to set.now)) (choices (atoms_of rest.now) more))
        found.items new.items) }
{
    if is_blocked(found.as_slice(), set) {
        return Ok(found);
    }
    if more == 0 {
        return with_set(alloc, trial, set, found);
    }
    let mut found = found;
    for at in 0..rest.len() {
        let longer = with_choice(alloc, set, &rest[at])?;
        found = walk(
            alloc,
            trial,
            longer.as_slice(),
            &rest[at + 1..],
            more - 1,
            found,
        )?;
    }
    Ok(found)
}

// What is found after the set was tried.
fn with_set(
    alloc: Global,
    trial: &Trial<'_>,
    set: &[&Choice],
    found: Vec<Triple>,
) -> Result<Vec<Triple>, AllocError>
    requires ready { IsReady trial.now }
    requires choices { All (IsChoiceOf trial.now) (pointed_to set.now) }
    requires ascends { IsTrue (ascend (atoms_of (pointed_to set.now))) }
    requires unblocked { ¬ IsBlocked found.items (atoms_of (pointed_to set.now)) }
    ensures { IfOk result (λ new. IsTried trial.now found.items (atoms_of (pointed_to set.now))
        new.items) }
{
    if !is_wanted(trial, set) {
        return Ok(found);
    }
    match refutation(alloc, trial, set)? {
        Some(triple) => {
            let mut found = found;
            found.push(triple)?;
            Ok(found)
        }
        None => Ok(found),
    }
}

// Whether the set is asked for, or larger ones may be.
fn is_wanted(trial: &Trial<'_>, set: &[&Choice]) -> bool
    ensures { result ≡ is_wanted trial.now.width trial.now.question.old
        (atoms_of (pointed_to set.now)) }
{
    let old = trial.question.old;
    set.len() < trial.width as usize || old == 0 || has_new_choice(old, set)
}

// Whether the predicate of some atom wasn't among the first `old`.
fn has_new_choice(old: u32, set: &[&Choice]) -> bool
    ensures { result
        ≡ list_any (λ q. not (nat_lt q.predicate old)) (atoms_of (pointed_to set.now)) }
{
    for choice in set {
        if choice.atom.predicate >= old {
            return true;
        }
    }
    false
}

fn with_choice<'a>(
    alloc: Global,
    set: &[&'a Choice],
    choice: &'a Choice,
) -> Result<Vec<&'a Choice>, AllocError>
    ensures { IfOk result (λ longer. pointed_to longer.items
        ≡ pointed_to set.now ++ choice.now ∷ []) }
{
    let mut longer = Vec::with_capacity(alloc, set.len() + 1)?;
    longer.extend_from_slice(set)?;
    longer.push(choice)?;
    Ok(longer)
}

// Whether all atoms of some triple are in the set.
fn is_blocked(found: &[Triple], set: &[&Choice]) -> bool
    ensures { IsTrue result ↔ IsBlocked found.now (atoms_of (pointed_to set.now)) }
{
    for triple in found {
        if is_inside(triple.pre.as_slice(), set) {
            return true;
        }
    }
    false
}

fn is_inside(part: &[Atom], set: &[&Choice]) -> bool
    ensures { IsTrue result ↔ All (Contains (atoms_of (pointed_to set.now))) part.now }
{
    for atom in part {
        if !has_atom(set, atom) {
            return false;
        }
    }
    true
}

fn has_atom(set: &[&Choice], atom: &Atom) -> bool
    ensures { IsTrue result ↔ Contains (atoms_of (pointed_to set.now)) atom.now }
{
    for choice in set {
        if is_same(&choice.atom, atom) {
            return true;
        }
    }
    false
}

fn is_same(one: &Atom, other: &Atom) -> bool
    ensures { IsTrue result ↔ (one.now ≡ other.now) }
{
    one.predicate == other.predicate && one.threads.as_slice() == other.threads.as_slice()
}

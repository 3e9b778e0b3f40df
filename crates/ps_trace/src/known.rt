// The values that are given for the variables of a trace, and the lists that a witness has of them.
ghost use Rattle.std.specs.Prelude.{◌≡◌, ◌<◌, ◌+◌, ◌^◌, [], ◌∷◌, IfOk, map};
ghost use Rattle.std.specs.BTreeMap.{BTreeMap};
ghost use Rattle.ps_graph.specs.Picks.{values_in};
ghost use Rattle.ps_trace.specs.WitnessOf.{choice_by, choices_by, globals_by, locals_by, value_among};
ghost use Rattle.ps_trace.specs.inner.Known.{known_values};

use crate::picking::choice_of;
use ps_graph::Pick;
use ps_list::Sequence;
use ps_term::Var;
use std::alloc::{AllocError, Global};
use std::collections::BTreeMap;

// A map of the values, of several for one variable the first.
pub(crate) fn known_from(
    alloc: Global,
    values: &[(Var, i128)],
) -> Result<BTreeMap<Var, i128>, AllocError>
    ensures { IfOk result (λ known. known_values known ≡ value_among values.now) }
{
    let mut known = BTreeMap::new(alloc);
    for taken in 0..values.len() {
        let pair = values[values.len() - (taken + 1)];
        known.insert(pair.0, pair.1)?;
    }
    Ok(known)
}

// The variable's value, or 0 where none is known.
fn value_of(known: &BTreeMap<Var, i128>, variable: Var) -> i128
    ensures { result ≡ known_values known.now variable }
{
    known.get(&variable).copied().unwrap_or(0)
}

// The values of so many globals.
pub(crate) fn globals_of(
    alloc: Global,
    known: &BTreeMap<Var, i128>,
    count: u32,
) -> Result<Sequence<i128>, AllocError>
    ensures { IfOk result (λ list. list ≡ globals_by (known_values known.now) count) }
{
    let mut list = Vec::with_capacity(alloc, count as usize)?;
    for n in 0..count {
        list.push(value_of(known, Var::Global(n)))?;
    }
    Ok(Sequence::from_list(list))
}

// The values of so many locals of the thread.
fn locals_of(
    alloc: Global,
    known: &BTreeMap<Var, i128>,
    count: u32,
    thread: u32,
) -> Result<Sequence<i128>, AllocError>
    ensures { IfOk result (λ list. list ≡ locals_by (known_values known.now) count thread) }
{
    let mut list = Vec::with_capacity(alloc, count as usize)?;
    for n in 0..count {
        list.push(value_of(known, Var::Local(thread, n)))?;
    }
    Ok(Sequence::from_list(list))
}

// The values of so many locals of each thread.
pub(crate) fn locals_of_each(
    alloc: Global,
    known: &BTreeMap<Var, i128>,
    count: u32,
    threads: &[u32],
) -> Result<Sequence<Sequence<i128>>, AllocError>
    ensures { IfOk result
        (λ lists. lists ≡ map (locals_by (known_values known.now) count) threads.now) }
{
    let mut lists = Vec::with_capacity(alloc, threads.len())?;
    for thread in threads {
        lists.push(locals_of(alloc, known, count, *thread)?)?;
    }
    Ok(Sequence::from_list(lists))
}

// The choices for the picks, whose havocs are numbered from `first` on.
pub(crate) fn choices_of(
    alloc: Global,
    known: &BTreeMap<Var, i128>,
    first: u32,
    picks: &[Pick],
) -> Result<Sequence<i128>, AllocError>
    requires { first + values_in picks.now < 2 ^ 32 }
    ensures { IfOk result
        (λ list. list ≡ choices_by (known_values known.now) first picks.now) }
{
    let mut list = Vec::with_capacity(alloc, picks.len())?;
    let mut next = first;
    for pick in picks {
        list.push(choice_at(known, next, *pick))?;
        next += havocs_of(*pick);
    }
    Ok(Sequence::from_list(list))
}

// The choice for the pick, where the next havoc has this number.
fn choice_at(known: &BTreeMap<Var, i128>, next: u32, pick: Pick) -> i128
    ensures { result ≡ choice_by (known_values known.now) next pick }
{
    match pick {
        Pick::Star(holds) => choice_of(holds),
        Pick::Value => value_of(known, Var::Havoc(next)),
    }
}

// How many havocs the pick is of.
fn havocs_of(pick: Pick) -> u32
    ensures { result ≡ values_in (pick ∷ []) }
{
    match pick {
        Pick::Star(_) => 0,
        Pick::Value => 1,
    }
}

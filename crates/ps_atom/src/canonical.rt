// The canonical predicate of a row.
ghost use Rattle.std.specs.Prelude.{◌≡◌, ◌≤◌, ◌-◌, ◌^◌, IfErr, IfOk, length, map, min};
ghost use Rattle.std.specs.List.Sorted.{IsStrictlyIncreasing};
ghost use Rattle.ps_atom.specs.Canonical.{IsInSlots};
ghost use Rattle.ps_atom.specs.inner.Ends.{IsFormEnd};
ghost use Rattle.ps_atom.specs.Threads.{AreOccurring};

use crate::occurring::occurring;
use crate::place::PlaceEnd;
use crate::predicate::Predicate;
use crate::share::{Share, shares_in_order};
use crate::slots::placed;
use crate::threads::Threads;
use ps_term::{Pairs, Row, Term};
use std::alloc::{AllocError, Global};

// A predicate with the threads in its slots.
#[derive(Debug, Drop)]
pub(crate) struct Form {
    pub(crate) predicate: Predicate,
    pub(crate) threads: Threads,
}

// The form of a tightened row: slots put for its threads in their order.
pub(crate) fn form_of(alloc: Global, tight: &Row) -> Result<Form, PlaceEnd>
    ensures form { IfOk result
        (λ form. IsInSlots tight.now form.predicate form.threads × (length form.threads ≤ 4)) }
    ensures end { IfErr result (IsFormEnd tight.now) }
{
    let threads = match occurring(alloc, tight.term.pairs.as_slice()) {
        Ok(threads) => threads,
        Err(end) => return Err(PlaceEnd::Memory(end)),
    };
    if threads.len() > Predicate::MOST_SLOTS as usize {
        return Err(PlaceEnd::Arity {
            count: in_32_bits(threads.len()),
        });
    }
    match form_with(alloc, tight, threads.as_slice()) {
        Ok(form) => Ok(form),
        Err(end) => Err(PlaceEnd::Memory(end)),
    }
}

// The count, or the greatest number of 32 bits past that.
fn in_32_bits(count: usize) -> u32
    ensures { result ≡ min count (2 ^ 32 - 1) }
{
    u32::try_from(count).unwrap_or(u32::MAX)
}

fn form_with(alloc: Global, tight: &Row, threads: &[u32]) -> Result<Form, AllocError>
    requires few { length threads.now ≤ 4 }
    requires ascending { IsStrictlyIncreasing threads.now }
    requires occurring { AreOccurring tight.now.term.pairs threads.now }
    ensures { IfOk result
        (λ form. IsInSlots tight.now form.predicate form.threads × (length form.threads ≤ 4)) }
{
    let pairs = tight.term.pairs.as_slice();
    let shares = shares_in_order(alloc, pairs, threads)?;
    let list = placed(alloc, pairs, shares.as_slice())?;
    let threads = threads_of(alloc, shares.as_slice())?;
    Ok(Form {
        predicate: Predicate {
            arity: shares.len() as u32,
            row: Row {
                term: Term {
                    pairs: Pairs::from_list(list),
                    constant: tight.term.constant,
                },
            },
        },
        threads,
    })
}

fn threads_of(alloc: Global, shares: &[Share]) -> Result<Threads, AllocError>
    ensures { IfOk result (λ threads. threads ≡ map (λ share. share.thread) shares.now) }
{
    let mut threads = Threads::new(alloc);
    for share in shares {
        threads.push(share.thread)?;
    }
    Ok(threads)
}

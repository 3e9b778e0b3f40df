// The initial entry of what stands at the first cut.
ghost use Rattle.std.specs.Prelude.{◌≡◌, ◌+◌, ◌++◌, All, IfNone, IfOk, IfSome, OnOk, length};
ghost use Rattle.std.specs.List.{flat_map};
ghost use Rattle.ps_interp.specs.Weights.{added, weights_of, weights_of_others, zeros};
ghost use Rattle.ps_interp.specs.inner.Meetings.{interpolant_of};
ghost use Rattle.ps_interp.specs.inner.Starts.{AreOthersSmall, HaveWeights, IsSmall, all_weights, initial_by};

use crate::standing::Standing;
use crate::start::{StartWeights, ThreadWeights};
use ps_command::Setting;
use ps_list::Sequence;
use ps_triple::{Entry, Initial};
use std::alloc::{AllocError, Global};

// The initial entry, or `None` where the sum of the multipliers of a row for all threads in no slot is past the greatest
// `i128`.
pub(crate) fn initial_entry(
    alloc: Global,
    setting: &Setting,
    start: &StartWeights<'_>,
    standing: &Standing,
) -> Result<Option<Entry>, AllocError>
    requires { HaveWeights setting.now.init_each start.now.threads.items }
    ensures entry { IfOk result (λ made. IfSome made
        (λ entry. entry ≡ initial_by setting.now start.now (interpolant_of standing.now))) }
    ensures fits { IfOk result (λ made. IfSome made (λ _.
        AreOthersSmall setting.now start.now.threads.items standing.now.atom.threads)) }
    ensures past { IfOk result (λ made. IfNone made
        (¬ AreOthersSmall setting.now start.now.threads.items standing.now.atom.threads)) }
{
    let slots = standing.atom.threads.as_slice();
    let threads = start.threads.as_slice();
    let Some(others) = weights_of_others(alloc, setting, threads, slots)? else {
        return Ok(None);
    };
    let of_slots = others.len().saturating_mul(slots.len());
    let rows = start.once.len() + others.len() + 1;
    let mut lambda = Vec::with_capacity(alloc, rows.saturating_add(of_slots))?;
    lambda.extend_from_slice(start.once)?;
    push_of_slots(&mut lambda, setting, threads, slots)?;
    lambda.extend_from_slice(others.as_slice())?;
    lambda.push(standing.divisor)?;
    Ok(Some(Entry::Initial(Initial {
        predicate: standing.atom.predicate,
        lambda: Sequence::from_list(lambda),
    })))
}

// Appends the multipliers of each slot's thread.
fn push_of_slots(
    lambda: &mut Vec<u128>,
    setting: &Setting,
    threads: &[ThreadWeights<'_>],
    slots: &[u32],
) -> Result<(), AllocError>
    ensures { OnOk result (lambda.new.items ≡ lambda.old.items
        ++ flat_map (weights_of (zeros setting.now.init_each) (all_weights threads.now)) slots.now) }
{
    for slot in slots {
        push_of_thread(lambda, setting, threads, *slot)?;
    }
    Ok(())
}

// Appends the multipliers of the thread; one that doesn't occur has none but 0.
fn push_of_thread(
    lambda: &mut Vec<u128>,
    setting: &Setting,
    threads: &[ThreadWeights<'_>],
    thread: u32,
) -> Result<(), AllocError>
    ensures { OnOk result (lambda.new.items ≡ lambda.old.items
        ++ weights_of (zeros setting.now.init_each) (all_weights threads.now) thread) }
{
    for own in threads {
        if own.thread == thread {
            return lambda.extend_from_slice(own.weights);
        }
    }
    push_zeros(lambda, setting)
}

// Appends 0 for each row that holds for every thread.
fn push_zeros(lambda: &mut Vec<u128>, setting: &Setting) -> Result<(), AllocError>
    ensures { OnOk result (lambda.new.items ≡ lambda.old.items ++ zeros setting.now.init_each) }
{
    for _row in setting.init_each.as_slice() {
        lambda.push(0).map_err(|_| AllocError)?;
    }
    Ok(())
}

// 0 for each row that holds for every thread.
fn zeros(alloc: Global, setting: &Setting) -> Result<Vec<u128>, AllocError>
    ensures { IfOk result (λ list. list.items ≡ zeros setting.now.init_each) }
{
    let mut list = Vec::with_capacity(alloc, setting.init_each.as_slice().len())?;
    push_zeros(&mut list, setting)?;
    Ok(list)
}

// For each row the sum of its multipliers for all threads in no slot, or `None` where one is past the greatest `i128`.
fn weights_of_others(
    alloc: Global,
    setting: &Setting,
    threads: &[ThreadWeights<'_>],
    slots: &[u32],
) -> Result<Option<Vec<u128>>, AllocError>
    requires { HaveWeights setting.now.init_each threads.now }
    ensures sums { IfOk result (λ made. IfSome made (λ sums. sums.items
        ≡ weights_of_others (zeros setting.now.init_each) (all_weights threads.now) slots.now)) }
    ensures fits { IfOk result (λ made. IfSome made (λ _.
        AreOthersSmall setting.now threads.now slots.now)) }
    ensures past { IfOk result (λ made. IfNone made
        (¬ AreOthersSmall setting.now threads.now slots.now)) }
{
    let mut sums = zeros(alloc, setting)?;
    let mut left = threads.len();
    while left > 0 {
        left -= 1;
        let own = &threads[left];
        if slots.contains(&own.thread) {
            continue;
        }
        let Some(more) = added(alloc, own.weights, sums.as_slice())? else {
            return Ok(None);
        };
        sums = more;
    }
    Ok(Some(sums))
}

// The sums place by place, or `None` where one is past the greatest `i128`.
fn added(alloc: Global, weights: &[u128], sums: &[u128]) -> Result<Option<Vec<u128>>, AllocError>
    requires { length weights.now ≡ length sums.now }
    ensures sums { IfOk result (λ made. IfSome made
        (λ list. list.items ≡ added weights.now sums.now)) }
    ensures fits { IfOk result (λ made. IfSome made (λ _. All IsSmall (added weights.now sums.now))) }
    ensures past { IfOk result (λ made. IfNone made (¬ All IsSmall (added weights.now sums.now))) }
{
    let mut list = Vec::with_capacity(alloc, sums.len())?;
    for place in 0..sums.len() {
        let Some(sum) = small_sum(weights[place], sums[place]) else {
            return Ok(None);
        };
        list.push(sum)?;
    }
    Ok(Some(list))
}

// The sum, unless it is past the greatest `i128`.
fn small_sum(one: u128, other: u128) -> Option<u128>
    ensures is { IfSome result (λ sum. (sum ≡ one + other) × IsSmall sum) }
    ensures past { IfNone result (¬ IsSmall (one + other)) }
{
    match one.checked_add(other) {
        Some(sum) if sum < 1 << 127 => Some(sum),
        _ => None,
    }
}

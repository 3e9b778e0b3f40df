//! The numbers that are alone in a set.
ghost use Rattle.std.specs.Prelude.{◌≡◌, ◌∷◌, [], All, IfOk, IfSome};
ghost use Rattle.std.specs.List.Sorted.{IsStrictlyIncreasing};
ghost use Rattle.ps_hit.specs.Hitting.{numbers_of};
ghost use Rattle.ps_hit.specs.inner.Searching.{IsLone};

use std::alloc::{AllocError, Global};

/// The numbers that are alone in a set, each once and in ascending order. Each hitting set has them.
pub fn lone_numbers(alloc: Global, sets: &[Vec<u32>]) -> Result<Vec<u32>, AllocError>
    ensures ascends { IfOk result (λ lone. IsStrictlyIncreasing lone.items) }
    ensures lone { IfOk result (λ lone. All (IsLone (numbers_of sets.now)) lone.items) }
{
    let mut lone = Vec::new(alloc);
    for set in sets {
        let Some(number) = only_number(set.as_slice()) else {
            continue;
        };
        lone.push(number)?;
    }
    lone.sort_unstable();
    lone.dedup();
    Ok(lone)
}

fn only_number(set: &[u32]) -> Option<u32>
    ensures { IfSome result (λ number. set.now ≡ number ∷ []) }
{
    match set {
        [number] => Some(*number),
        _ => None,
    }
}

//! The demands of a step in two parts, since nearly each has one atom: those need no set of their own.
ghost use Rattle.std.specs.Prelude.{◌≡◌, IfOk};
ghost use Rattle.std.specs.List.{filter, filter_map};
ghost use Rattle.ps_demand.specs.Candidates.{demanded_of, has_no_only, only_atom, pairs_of};
ghost use Rattle.ps_demand.specs.Pools.{lists_of};

use crate::candidate::Candidate;
use crate::parted::Parted;
use crate::renaming::add_parted;
use std::alloc::{AllocError, Global};

/// What the candidates demand where the thread runs the command: each part in their order. In time of the candidates and of
/// what they demand, and memory for the first.
pub fn parted_demands<'a>(
    alloc: Global,
    candidates: &[Candidate<'a>],
    thread: u32,
    command: u32,
) -> Result<Parted, AllocError>
    ensures alone { IfOk result (λ parted. parted.alone.items
        ≡ filter_map only_atom (demanded_of thread command (pairs_of candidates.now))) }
    ensures others { IfOk result (λ parted. lists_of parted.others.items
        ≡ filter has_no_only (demanded_of thread command (pairs_of candidates.now))) }
{
    let mut parted = Parted {
        alone: Vec::with_capacity(alloc, candidates.len())?,
        others: Vec::new(alloc),
    };
    for candidate in candidates {
        add_parted(alloc, *candidate, thread, command, &mut parted)?;
    }
    Ok(parted)
}

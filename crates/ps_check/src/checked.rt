//! The check of a proof.
ghost use Rattle.std.specs.Prelude.{◌≡◌, ◌↔◌, ◌≤◌, IfOk, MatchOption, length};
ghost use Rattle.ps_basis.specs.declared.limits.TheConstants.{MOST_ENTRIES};
ghost use Rattle.ps_check.specs.Faults.{IfRefused, IsFirstFault};
ghost use Rattle.ps_check.specs.declared.judgement.Judgement.TheVariants.{Accepted};
ghost use Rattle.ps_check.specs.inner.Stages.{AreCounted};
ghost use Rattle.ps_step.specs.Closed.{IsAccepted};

use crate::configs::config_fault;
use crate::counted::are_counted;
use crate::covering::covering_fault;
use crate::entries::{entry_fault, predicate_fault, table_of};
use crate::fault::CheckFault;
use crate::judgement::Judgement;
use ps_file::Proof;
use ps_graph::Graph;
use std::alloc::{AllocError, Global};

/// Whether the proof is accepted: its predicates are in range, its entries hold, its configurations name things, and
/// they are a closed covering under the entries; or else its first fault. No limit on the threads or atoms of a
/// step back applies. A list of more members than 32 bits can number is answered as want of memory, which so many are.
///
/// In the time of `check_entry` for each entry, and of a sort of the configurations by their locations. For each
/// configuration and the start, each edge and each thread that occurs and the fresh one, the time of the step's demands, of
/// finding the configurations whose locations are within those of the step, and of a search for a choice of one atom from
/// each demand that none of these covers, which is exponential in the number of demands at worst. In memory of a copy of
/// the predicates, the entries and the configurations, and of one step.
pub fn check(alloc: Global, graph: &Graph, proof: &Proof) -> Result<Judgement, AllocError>
    requires predicates { length proof.now.predicates ≤ 127 }
    requires entries { length proof.now.entries ≤ MOST_ENTRIES }
    ensures accepted { IfOk result (λ judgement. (judgement ≡ Accepted)
        ↔ IsAccepted graph.now proof.now.predicates proof.now.entries proof.now.configs) }
    ensures refused { IfOk result (IfRefused (IsFirstFault graph.now proof.now)) }
{
    if !are_counted(graph, proof) {
        return Err(AllocError);
    }
    match first_fault(alloc, graph, proof)? {
        None => Ok(Judgement::Accepted),
        Some(fault) => Ok(Judgement::Refused(fault)),
    }
}

fn first_fault(
    alloc: Global,
    graph: &Graph,
    proof: &Proof,
) -> Result<Option<CheckFault>, AllocError>
    requires predicates { length proof.now.predicates ≤ 127 }
    requires entries { length proof.now.entries ≤ MOST_ENTRIES }
    requires counted { AreCounted graph.now proof.now }
    ensures { IfOk result (λ fault. MatchOption fault
        (IsAccepted graph.now proof.now.predicates proof.now.entries proof.now.configs)
        (IsFirstFault graph.now proof.now)) }
{
    if let Some(fault) = predicate_fault(graph, proof) {
        return Ok(Some(fault));
    }
    let table = table_of(alloc, proof)?;
    match entry_fault(alloc, graph, proof, &table)? {
        Some(fault) => return Ok(Some(fault)),
        None => {}
    }
    if let Some(fault) = config_fault(graph, proof, table.list()) {
        return Ok(Some(fault));
    }
    covering_fault(alloc, graph, proof)
}

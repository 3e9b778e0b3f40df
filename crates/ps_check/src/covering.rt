//! The faults of configurations as a covering.
ghost use Rattle.std.specs.Prelude.{◌≡◌, ◌≤◌, ◌<◌, ◌+◌, IfOk, MatchOption, length};
ghost use Rattle.ps_basis.specs.declared.limits.TheConstants.{MOST_ENTRIES};
ghost use Rattle.ps_check.specs.Faults.{IsFirstFault};
ghost use Rattle.ps_check.specs.inner.Stages.{AreClosedBefore, AreCounted, AreNamed, IsClosedAt, IsStartCovered};
ghost use Rattle.ps_step.specs.Closed.{IsAccepted};

use crate::counted::count_of;
use crate::fault::CheckFault;
use crate::listed::Listed;
use crate::steps::first_uncovered;
use ps_basis::Front;
use ps_config::Config;
use ps_file::Proof;
use ps_graph::Graph;
use ps_list::copies;
use ps_step::accepting;
use std::alloc::{AllocError, Global};

/// The first fault of the steps back and of accepting configurations.
pub(crate) fn covering_fault(
    alloc: Global,
    graph: &Graph,
    proof: &Proof,
) -> Result<Option<CheckFault>, AllocError>
    requires named { AreNamed graph.now proof.now }
    requires entries { length proof.now.entries ≤ MOST_ENTRIES }
    requires counted { AreCounted graph.now proof.now }
    ensures { IfOk result (λ fault. MatchOption fault
        (IsAccepted graph.now proof.now.predicates proof.now.entries proof.now.configs)
        (IsFirstFault graph.now proof.now)) }
{
    let front = Front::indexed(alloc, copies(alloc, proof.entries.as_slice())?)?;
    let configs = Listed::new(alloc, proof.configs.as_slice())?;
    match start_fault(alloc, graph, proof, &front, &configs)? {
        Some(fault) => Ok(Some(fault)),
        None => closings_fault(alloc, graph, proof, &front, &configs),
    }
}

/// The first step back from the start that isn't covered.
fn start_fault(
    alloc: Global,
    graph: &Graph,
    proof: &Proof,
    front: &Front,
    configs: &Listed,
) -> Result<Option<CheckFault>, AllocError>
    requires named { AreNamed graph.now proof.now }
    requires front { front.now ≡ proof.now.entries }
    requires configs { configs.now ≡ proof.now.configs }
    requires counted { AreCounted graph.now proof.now }
    ensures { IfOk result (λ fault. MatchOption fault
        (IsStartCovered graph.now proof.now) (IsFirstFault graph.now proof.now)) }
{
    let start = Config::start(alloc)?;
    match first_uncovered(alloc, graph, front, configs, &start)? {
        None => Ok(None),
        Some(step) => Ok(Some(CheckFault::Uncovered {
            config: None,
            edge: step.edge,
            thread: step.thread,
        })),
    }
}

/// The first fault of the configurations in turn.
fn closings_fault(
    alloc: Global,
    graph: &Graph,
    proof: &Proof,
    front: &Front,
    configs: &Listed,
) -> Result<Option<CheckFault>, AllocError>
    requires start { IsStartCovered graph.now proof.now }
    requires front { front.now ≡ proof.now.entries }
    requires configs { configs.now ≡ proof.now.configs }
    requires counted { AreCounted graph.now proof.now }
    ensures { IfOk result (λ fault. MatchOption fault
        (IsAccepted graph.now proof.now.predicates proof.now.entries proof.now.configs)
        (IsFirstFault graph.now proof.now)) }
{
    let count = count_of(proof.configs.as_slice());
    for number in 0..count {
        match closing_fault(alloc, graph, proof, front, configs, number)? {
            Some(fault) => return Ok(Some(fault)),
            None => {}
        }
    }
    Ok(None)
}

/// Whether the configuration of this number is accepting, or else its first step back that isn't covered.
fn closing_fault(
    alloc: Global,
    graph: &Graph,
    proof: &Proof,
    front: &Front,
    configs: &Listed,
    number: u32,
) -> Result<Option<CheckFault>, AllocError>
    requires start { IsStartCovered graph.now proof.now }
    requires front { front.now ≡ proof.now.entries }
    requires configs { configs.now ≡ proof.now.configs }
    requires counted { AreCounted graph.now proof.now }
    requires exists { number < length proof.now.configs }
    requires before { AreClosedBefore graph.now proof.now number }
    ensures { IfOk result (λ fault. MatchOption fault
        (AreClosedBefore graph.now proof.now (number + 1)) (IsFirstFault graph.now proof.now)) }
{
    let config = &proof.configs.as_slice()[number as usize];
    if accepting(graph, config, front) {
        return Ok(Some(CheckFault::Accepting(number)));
    }
    match first_uncovered(alloc, graph, front, configs, config)? {
        None => Ok(None),
        Some(step) => Ok(Some(CheckFault::Uncovered {
            config: Some(number),
            edge: step.edge,
            thread: step.thread,
        })),
    }
}

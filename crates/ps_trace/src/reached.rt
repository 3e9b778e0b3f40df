//! Witnesses that reach a failure.
ghost use Rattle.std.specs.Prelude.{◌≡◌, ◌<◌, ◌^◌, IfOk, IsErrOf, MatchOption, OnOk, length};
ghost use Rattle.ps_trace.specs.Replay.{ReplayFits, Replays};

use crate::replaying::replay;
use crate::witness::Witness;
use ps_command::RunEnd;
use ps_graph::Graph;
use std::alloc::Global;
use std::snapshot::Snapshot;

/// A witness that replays on a graph; the graph is kept for contracts alone, and takes no bytes.
#[derive(Drop)]
pub struct Reached {
    pub witness: Witness,
    pub graph: Snapshot<Graph>,
    pub ghost replays: { ∥ Replays graph.value witness ∥₁ },
}

impl Reached {
    /// Gives the witness; the call needs no memory.
    pub fn into_witness(self) -> Witness
        ensures witness { result ≡ self.witness }
        ensures replays { ∥ Replays self.graph.value result ∥₁ }
    {
        let Reached { witness, .. } = self;
        witness
    }
}

/// The witness with the fact that it replays on the graph, or `None` where it doesn't; the time and the memory are those of
/// `replay`, and so is `Past128`.
pub fn reach(alloc: Global, graph: &Graph, witness: Witness) -> Result<Option<Reached>, RunEnd>
    requires { length graph.now.edges < 2 ^ 32 }
    ensures reached { IfOk result (λ found. MatchOption found
        (¬ Replays graph.now witness)
        (λ reached. (reached.witness ≡ witness) × (reached.graph.value ≡ graph.now))) }
    ensures fits { OnOk result (ReplayFits graph.now witness) }
    ensures past { IsErrOf result RunEnd.Past128 → ¬ ReplayFits graph.now witness }
{
    if !replay(alloc, graph, &witness)? {
        return Ok(None);
    }
    Ok(Some(Reached {
        witness,
        graph: Snapshot::of(graph),
    }))
}

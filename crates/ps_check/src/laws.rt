//! Facts about faults: each function does no work, and its clause is the fact.
ghost use Rattle.std.specs.Prelude.{◌≡◌};
ghost use Rattle.ps_check.specs.Faults.{HasFault, IsFirstFault};
ghost use Rattle.ps_check.specs.declared.fault.CheckFault.{CheckFault};
ghost use Rattle.ps_file.specs.declared.proof.Proof.{Proof};
ghost use Rattle.ps_graph.specs.declared.graph.Graph.{Graph};
ghost use Rattle.ps_step.specs.Closed.{IsAccepted};

/// A proof that is accepted has no fault.
pub fn accepted_proofs_have_no_fault()
    ensures { (graph : Graph) (proof : Proof)
        → IsAccepted graph proof.predicates proof.entries proof.configs
        → (fault : CheckFault) → ¬ HasFault graph proof fault }
{}

/// A proof has one first fault, if it has faults.
pub fn the_first_fault_is_one()
    ensures { (graph : Graph) (proof : Proof) (one other : CheckFault)
        → IsFirstFault graph proof one → IsFirstFault graph proof other → one ≡ other }
{}

/// Of a proof that has none of the faults it can't be denied that it is accepted.
pub fn what_has_no_fault_is_accepted()
    ensures { (graph : Graph) (proof : Proof)
        → ((fault : CheckFault) → ¬ HasFault graph proof fault)
        → ¬ ¬ IsAccepted graph proof.predicates proof.entries proof.configs }
{}

//! Worked examples of accepted proofs: each function does no work, and its clauses are the examples.
ghost use Rattle.ps_soundness.specs.Examples.{CounterIsAccepted, LessIsNotAccepted};

/// A proof of the counter that is accepted, and that less isn't.
pub fn the_counter_is_proved_safe()
    ensures accepted { CounterIsAccepted }
    ensures less { LessIsNotAccepted }
{}

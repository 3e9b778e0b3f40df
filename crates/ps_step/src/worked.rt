//! Worked examples of steps back: each function does no work, and its clauses are the examples.
ghost use Rattle.ps_step.specs.Examples.{CounterIsClosed, FromAsserting, FromStart, MoreThanSmallest, OneInOnce, WhichAccept};

/// Steps back of a counter under the entries that prove it safe.
pub fn steps_of_a_counter()
    ensures start { FromStart }
    ensures next { FromAsserting }
    ensures more { MoreThanSmallest }
    ensures once { OneInOnce }
{}

/// Which configurations of the counter are accepting, and that its covering is closed.
pub fn a_closed_covering()
    ensures accepting { WhichAccept }
    ensures closed { CounterIsClosed }
{}

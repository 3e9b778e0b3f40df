//! Worked examples of the definitions: each function does no work, and its clauses are the examples.
ghost use Rattle.ps_trace.specs.Examples.{ChoicesCount, CounterTraces, FirstThatRuns, HavocsAreNumbered, LettersAsk, RaceIsReached, RaceIsTraced, RaceIsWitnessed, ThreadsStart};

/// Which witnesses reach a failure.
pub fn witnesses()
    ensures race { RaceIsReached }
    ensures choices { ChoicesCount }
{}

/// Which traces are error traces, and which of these are feasible.
pub fn traces()
    ensures race { RaceIsTraced }
    ensures counter { CounterTraces }
{}

/// The rows of letters, and of threads at the start.
pub fn rows()
    ensures letters { LettersAsk }
    ensures threads { ThreadsStart }
{}

/// The edge that a step goes along.
pub fn replays()
    ensures { FirstThatRuns }
{}

/// The witness that a trace makes of values, and the numbers of havocs.
pub fn made_witnesses()
    ensures race { RaceIsWitnessed }
    ensures havocs { HavocsAreNumbered }
{}

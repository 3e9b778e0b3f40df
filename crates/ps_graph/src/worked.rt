//! Worked examples of the definitions: each function does no work, and its clauses are the examples.
ghost use Rattle.ps_graph.specs.Examples.Conditions.{AlternativesAre, NegationsAre, SignsCompare, SumIsWorth, TruthIs};
ghost use Rattle.ps_graph.specs.Examples.Connections.{CounterBegins, CounterBeginsNot, IfBegins, WhileBegins};
ghost use Rattle.ps_graph.specs.Examples.Executions.{CounterPasses, LocalsAreOwn, LoopFailsAtSix, LoopPassesAtFive, NotReached, NothingFails, RaceAlonePasses, RaceFails, RaceFailsOnce, RaceFailsSometimes, RestsAreOwn, ValuesHaveNoBound};
ghost use Rattle.ps_graph.specs.Examples.Keeping.{AllAreKept, BodyBroken, ChoiceBroken, EntryBroken, ErrorBroken, NameBroken, PicksBroken};
ghost use Rattle.ps_graph.specs.Examples.Starts.{DeclaredValues, InitialLocals, InitialRelations, InitialStates, LocalsNamed, StatesOfSetting, UndeclaredValues};
ghost use Rattle.ps_graph.specs.Examples.Steps.{AtomicPartly, EndedThreadsStay, FalseAssertFails, FalseAssumeStops, GuessFails, GuessPasses, HavocTakesAny, IfWithoutElse, NoSuchChoice, SkipTakesNone, TestsTakeOne, TooFewChoices, TooManyChoices};
ghost use Rattle.ps_graph.specs.Examples.Traces.{CounterIsInfeasible, CounterTraces, ErrorStandsLast, LettersOfSteps, OnceBodies, PathsAreJoined, RaceIsFeasible, TracesFromEntry};
ghost use Rattle.ps_graph.specs.Examples.Ways.{PathsOfAssert, PathsOfAssume, PathsOfAtomic, PicksOfPath};

/// What sums and conditions are worth, and the alternatives of a condition, in order.
pub fn conditions()
    ensures sum { SumIsWorth }
    ensures signs { SignsCompare }
    ensures truth { TruthIs }
    ensures alternatives { AlternativesAre }
    ensures negations { NegationsAre }
{}

/// Which states are initial, of a program and of a setting.
pub fn initial_states()
    ensures globals { InitialStates }
    ensures locals { InitialLocals }
    ensures undeclared { UndeclaredValues }
    ensures relations { InitialRelations }
    ensures declared { DeclaredValues }
    ensures setting { StatesOfSetting }
    ensures named { LocalsNamed }
{}

/// Steps of one thread, and the choices that they take.
pub fn steps()
    ensures fails { GuessFails }
    ensures passes { GuessPasses }
    ensures few { TooFewChoices }
    ensures many { TooManyChoices }
    ensures none { NoSuchChoice }
    ensures tests { TestsTakeOne }
    ensures skip { SkipTakesNone }
    ensures havoc { HavocTakesAny }
    ensures assume { FalseAssumeStops }
    ensures assert { FalseAssertFails }
    ensures ended { EndedThreadsStay }
    ensures without_else { IfWithoutElse }
    ensures atomic { AtomicPartly }
{}

/// Executions of small programs, and which of them fail.
pub fn executions()
    ensures counter { CounterPasses }
    ensures unbounded { ValuesHaveNoBound }
    ensures rests { RestsAreOwn }
    ensures locals { LocalsAreOwn }
    ensures race { RaceFails }
    ensures alone { RaceAlonePasses }
    ensures once { RaceFailsOnce }
    ensures six { LoopFailsAtSix }
    ensures five { LoopPassesAtFive }
    ensures not_reached { NotReached }
    ensures sometimes { RaceFailsSometimes }
    ensures nothing { NothingFails }
{}

/// The paths of statements, in order.
pub fn paths()
    ensures assert { PathsOfAssert }
    ensures assume { PathsOfAssume }
    ensures atomic { PathsOfAtomic }
    ensures picks { PicksOfPath }
{}

/// Edges that follow a text, and edges that don't.
pub fn connections()
    ensures counter { CounterBegins }
    ensures counter_not { CounterBeginsNot }
    ensures branch { IfBegins }
    ensures repeat { WhileBegins }
{}

/// For each fact that a graph keeps, parts of a graph that break this one alone.
pub fn facts()
    ensures kept { AllAreKept }
    ensures names { NameBroken }
    ensures entries { EntryBroken }
    ensures error { ErrorBroken }
    ensures picks { PicksBroken }
    ensures bodies { BodyBroken }
    ensures choices { ChoiceBroken }
{}

/// Error traces, and which of them are feasible.
pub fn traces()
    ensures joined { PathsAreJoined }
    ensures last { ErrorStandsLast }
    ensures counter { CounterTraces }
    ensures entry { TracesFromEntry }
    ensures once { OnceBodies }
    ensures infeasible { CounterIsInfeasible }
    ensures race { RaceIsFeasible }
    ensures letters { LettersOfSteps }
{}

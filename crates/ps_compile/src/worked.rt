//! Worked examples of the definitions: each function does no work, and its clauses are the examples.
ghost use Rattle.ps_compile.specs.Examples.Bodies.{BlocksAreLaidOut, BranchIsLaidOut, CounterIsLaidOut, EmptyBlocksAreLaidOut, LockIsLaidOut, LoopIsLaidOut, NestedIfIsLaidOut, OtherEntriesServe};
ghost use Rattle.ps_compile.specs.Examples.Conditions.{LargerNumbersAreNot, LoopsInAtomicBlocksAreNot, OtherNamesAreNot, UnequalStartsAreNot, UpToTheBoundsIsCompiled};
ghost use Rattle.ps_compile.specs.Examples.Limits.{AlternativesAreCounted, LocationsAndEdgesAreCounted, PathsAreCounted, PathsComeFirst, RowsAreCounted};
ghost use Rattle.ps_compile.specs.Examples.Programs.{HalfIsLaidOut, PoolIsLaidOut, RaceIsLaidOut};
ghost use Rattle.ps_compile.specs.Examples.Starts.{CancelledLocalsHoldOnce, StartRowsAre};

/// The edges and commands of small bodies, by their numbers.
pub fn bodies()
    ensures counter { CounterIsLaidOut }
    ensures branch { BranchIsLaidOut }
    ensures lock { LockIsLaidOut }
    ensures repeat { LoopIsLaidOut }
    ensures nested { NestedIfIsLaidOut }
    ensures blocks { BlocksAreLaidOut }
    ensures empty { EmptyBlocksAreLaidOut }
    ensures entries { OtherEntriesServe }
{}

/// The edges and commands of programs that stand among the repository's examples.
pub fn programs()
    ensures half { HalfIsLaidOut }
    ensures race { RaceIsLaidOut }
    ensures pool { PoolIsLaidOut }
{}

/// The rows that hold at the start of a program.
pub fn start_rows()
    ensures rows { StartRowsAre }
    ensures cancelled { CancelledLocalsHoldOnce }
{}

/// Limits at their numbers and one above, and which is the first.
pub fn limits()
    ensures alternatives { AlternativesAreCounted }
    ensures paths { PathsAreCounted }
    ensures first { PathsComeFirst }
    ensures rows { RowsAreCounted }
    ensures locations { LocationsAndEdgesAreCounted }
{}

/// Programs that can be compiled, and programs that can't.
pub fn conditions()
    ensures largest { UpToTheBoundsIsCompiled }
    ensures larger { LargerNumbersAreNot }
    ensures others { OtherNamesAreNot }
    ensures unequal { UnequalStartsAreNot }
    ensures loops { LoopsInAtomicBlocksAreNot }
{}

//! Worked examples of the definitions: each function does no work, and its clauses are the examples.

ghost use Rattle.ps_lines.specs.Examples.{DecimalsAre, FaultsAre, LinesAreSpelled, PartsAre, TextsAreCut};

/// How a text is cut into fields and lines, and how lines are spelled.
pub fn texts()
    ensures cut { TextsAreCut }
    ensures spelled { LinesAreSpelled }
{}

/// What fields are read as, and where a text has its first fault.
pub fn fields()
    ensures decimals { DecimalsAre }
    ensures parts { PartsAre }
    ensures faults { FaultsAre }
{}

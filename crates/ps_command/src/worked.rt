//! Worked examples of symbolic forms: each function does no work, and its clauses are the examples.
ghost use Rattle.ps_command.specs.Examples.{AssumeInBetween, EmptyIsNone, HavocThenAssume, RowsAreKept};

/// Symbolic forms of some ops, and what isn't one.
pub fn forms()
    ensures havoc { HavocThenAssume }
    ensures between { AssumeInBetween }
    ensures rows { RowsAreKept }
    ensures none { EmptyIsNone }
{}

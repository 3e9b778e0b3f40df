//! Worked examples of the definitions: each function does no work, and its clauses are the examples.
ghost use Rattle.ps_atom_text.specs.Examples.{AtomsAre, ConfigsAre, EntriesAre};

/// What fields and lines are read as, and which fault is the first.
pub fn lines()
    ensures atoms { AtomsAre }
    ensures configs { ConfigsAre }
    ensures entries { EntriesAre }
{}

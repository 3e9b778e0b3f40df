//! Worked examples of the definitions: each function does no work, and its clauses are the examples.
ghost use Rattle.ps_atom.specs.Examples.{AtomsAreOrdered, PairsAreOrdered, RangesAre, SlotsAreThreads, ThreadsAreOrdered};

/// The order of threads in a row, and of atoms.
pub fn orders()
    ensures threads { ThreadsAreOrdered }
    ensures pairs { PairsAreOrdered }
    ensures atoms { AtomsAreOrdered }
{}

/// What slots stand for, and which predicates are in range.
pub fn slots()
    ensures slots { SlotsAreThreads }
    ensures ranges { RangesAre }
{}

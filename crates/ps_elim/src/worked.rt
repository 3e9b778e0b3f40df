//! Worked examples of the definitions: each function does no work, and its clauses are the examples.
ghost use Rattle.ps_elim.specs.Examples.{PairsAreTooMany, SumRefutesTwo, TwiceIsPast, WiderIsDropped, ZerosComeFirst};

/// Sets of vectors, one with a vector that is dropped for its support.
pub fn sets()
    ensures zeros { ZerosComeFirst }
    ensures dropped { WiderIsDropped }
{}

/// Answers: a refutation, a stage that is too wide, and one that leaves 128 bits.
pub fn answers()
    ensures refuted { SumRefutesTwo }
    ensures wide { PairsAreTooMany }
    ensures past { TwiceIsPast }
{}

//! Worked examples of variables, terms and rows: each function does no work, and its clauses are the examples.
ghost use Rattle.ps_term.specs.Examples.{Coefficients, EvaluatedInOrder, ExamplePut, FirstIsPut, HoldsUpToOne, OneSpelling, PartialSumsCount, PutAtOnes, RoundedUp, SumAdded, VariablesApart, VariablesInOrder, WorthAtFives};

/// The order of some variables, and which of them are one.
pub fn variables()
    ensures order { VariablesInOrder }
    ensures apart { VariablesApart }
{}

/// How a term is spelled, and what it is worth.
pub fn terms()
    ensures spelling { OneSpelling }
    ensures coefficients { Coefficients }
    ensures worth { WorthAtFives }
{}

/// A sum, terms that are put for variables, and a partial sum that leaves 128 bits.
pub fn sums()
    ensures added { SumAdded }
    ensures values { PutAtOnes }
    ensures first { FirstIsPut }
    ensures put { ExamplePut }
    ensures partial { PartialSumsCount }
    ensures evaluated { EvaluatedInOrder }
{}

/// Where a row holds, and quotients that are rounded up.
pub fn rows()
    ensures holds { HoldsUpToOne }
    ensures rounded { RoundedUp }
{}

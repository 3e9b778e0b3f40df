//! Worked examples of what multipliers refute: each function does no work, and its clause is the example.
ghost use Rattle.std.specs.Prelude.{[], ◌∷◌};
ghost use Rattle.ps_farkas.specs.Examples.{apart, falling, rising, touching};
ghost use Rattle.ps_farkas.specs.Refutes.{AllSumsFit, Refutes};

/// `x + 1 <= 0` and `-x <= 0` sum to `1 <= 0`, so they are refuted. With the second row alone the sum is no constant.
pub fn rows_apart_are_refuted()
    ensures both { Refutes apart (1 ∷ 1 ∷ []) }
    ensures alone { ¬ Refutes apart (0 ∷ 1 ∷ []) }
    ensures short { ¬ Refutes apart (1 ∷ []) }
{}

/// `x <= 0` and `-x <= 0` sum to `0 <= 0`, which refutes nothing.
pub fn rows_that_touch_are_not()
    ensures { ¬ Refutes touching (1 ∷ 1 ∷ []) }
{}

/// Partial sums count, in row order: the greatest number of 128 bits, 1 and -1 leave 128 bits on the way; with -1 before
/// 1 they don't.
pub fn sums_are_tested_in_row_order()
    ensures past { ¬ AllSumsFit rising (1 ∷ 1 ∷ 1 ∷ []) }
    ensures within { AllSumsFit falling (1 ∷ 1 ∷ 1 ∷ []) }
{}

//! Facts about cuts that readers and callers cite: each function does no work, and its clause is the fact.
ghost use Rattle.std.specs.Prelude.{◌≡◌, ℕ, List, codes};
ghost use Rattle.ps_parts.specs.Cuts.{AreTwoParts, HasNoMark, IsCut};

/// An input is cut at its first mark in one way.
pub fn an_input_is_cut_once()
    ensures { (input before after front rest : List ℕ) → IsCut input before after
        → IsCut input front rest
        → (before ≡ front) × (after ≡ rest) }
{}

/// An input that is cut has a mark.
pub fn a_cut_input_has_a_mark()
    ensures { (input before after : List ℕ) → IsCut input before after → ¬ HasNoMark input }
{}

/// Of two marks the first one cuts, and the second belongs to the last part; the program ends before its line feed.
pub fn the_first_mark_cuts()
    ensures { AreTwoParts (codes "a\n%%\nb\n%%\n") (codes "a") (codes "b\n%%\n") }
{}

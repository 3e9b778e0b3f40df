//! Worked examples of what falls with a node: each function does no work, and its clauses are the example.
ghost use Rattle.std.specs.Prelude.{[], ◌∷◌};
ghost use Rattle.ps_drop.specs.Examples.{links, tree};
ghost use Rattle.ps_drop.specs.Pairs.{Leads, Leans};

/// Of 1 and 2 below 0, and 3 below 1: 3 is below 1, and 2 isn't.
pub fn three_alone_is_below_one()
    ensures three { Leads tree 3 1 }
    ensures two { ¬ Leads tree 2 1 }
{}

/// Each node is below itself, also one that no pair names.
pub fn a_node_is_below_itself()
    ensures { Leads tree 9 9 }
{}

/// Of 0 with links to 1 and 2, and 2 with one to itself: 0 leans on one of 1 and 3, and 2 doesn't.
pub fn zero_alone_leans_on_one_or_three()
    ensures zero { Leans links (1 ∷ 3 ∷ []) 0 }
    ensures two { ¬ Leans links (1 ∷ 3 ∷ []) 2 }
{}

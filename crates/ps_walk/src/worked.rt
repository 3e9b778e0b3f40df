//! Worked examples of the definitions: each function does no work, and its clauses are the examples.
ghost use Rattle.ps_walk.specs.Examples.{FarEndsWalk, FarIsPast, NoneIsBetween, NothingIsWalked, OthersAreLeft, SecondIsMissed, SixIsFound, SixIsLower, SixIsNearest, ValuesAreTaken};

/// What a list of values gives to variables, and the bounds of rows.
pub fn bounds()
    ensures values { ValuesAreTaken }
    ensures others { OthersAreLeft }
    ensures lower { SixIsLower }
    ensures nearest { SixIsNearest }
    ensures past { FarIsPast }
{}

/// Walks with each of the answers.
pub fn walks()
    ensures nothing { NothingIsWalked }
    ensures found { SixIsFound }
    ensures between { NoneIsBetween }
    ensures missed { SecondIsMissed }
    ensures past { FarEndsWalk }
{}

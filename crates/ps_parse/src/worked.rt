//! Worked examples of the definitions: each function does no work, and its clauses are the examples.

ghost use Rattle.ps_parse.specs.Examples.{CausesStand, FaultStandsAtBrace, ItemsGiveNoMore, ItemsGiveRows, LevelsAreOpen, NamesAreDeclared, RowsAreCounted, TextIsRead, WordsAreWhole};

/// A text with its tree, and the first fault of another.
pub fn texts()
    ensures tree { TextIsRead }
    ensures fault { FaultStandsAtBrace }
{}

/// What the words before a place say.
pub fn words_before()
    ensures levels { LevelsAreOpen }
    ensures names { NamesAreDeclared }
    ensures rows { RowsAreCounted }
    ensures whole { WordsAreWhole }
{}

/// What an item ahead gives, and where causes of refusals stand.
pub fn causes()
    ensures gives { ItemsGiveRows }
    ensures no_more { ItemsGiveNoMore }
    ensures causes { CausesStand }
{}

//! Worked examples of the definitions: each function does no work, and its clauses are the examples.

ghost use Rattle.ps_token.specs.Examples.{AssignmentIsCut, HashIsBad, NumbersHaveFewDigits, PlacesCountBytes, ReservedNamesAreNone};

/// What names and numbers are, and where bytes stand.
pub fn words()
    ensures names { ReservedNamesAreNone }
    ensures numbers { NumbersHaveFewDigits }
    ensures places { PlacesCountBytes }
{}

/// A text that is cut, and one that isn't.
pub fn texts()
    ensures cut { AssignmentIsCut }
    ensures bad { HashIsBad }
{}

//! Facts about what words ask for, which readers and callers cite: each function does no work, and its clause is the
//! fact.
ghost use Rattle.std.specs.Prelude.{◌≡◌, ◌↔◌, List, ℕ};
ghost use Rattle.clap.specs.Walk.{Text};
ghost use Rattle.ps_words.specs.Asked.{AskFor};
ghost use Rattle.ps_words.specs.Plain.{AreTaken, Given, plain_words, words_given};
ghost use Rattle.ps_words.specs.declared.mode.Mode.{Mode};
ghost use Rattle.ps_words.specs.declared.words.Words.{Words};

/// Words ask for one thing at most.
pub fn one_thing_is_asked_for()
    ensures { (words : List Text) (a b : Words) → AskFor words a → AskFor words b → a ≡ b }
{}

/// Plain words ask for their mode, with the numbers that are given and the defaults of the other options. So they are
/// never refused.
pub fn plain_words_ask_for_what_they_say()
    ensures { (name : Text) (mode : Mode) (given : List Given) → AreTaken given
        → AskFor (plain_words name mode given) (words_given mode given) }
{}

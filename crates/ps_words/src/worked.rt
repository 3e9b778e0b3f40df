//! Worked examples of words: each function does no work, and its clauses are the examples.
ghost use Rattle.std.specs.Prelude.{[], ◌∷◌, codes};
ghost use Rattle.ps_words.specs.Asked.{AskFor, AskForNothing};
ghost use Rattle.ps_words.specs.Examples.{after_refute};
ghost use Rattle.ps_words.specs.Plain.{words_given};
ghost use Rattle.ps_words.specs.declared.mode.Mode.TheVariants.{Refute, Replay};
ghost use Rattle.ps_words.specs.declared.option_name.OptionName.TheVariants.{Explorers, Nodes, Traces};

/// There has to be one mode that is built.
pub fn one_mode_is_wanted()
    ensures no_words { AskForNothing [] }
    ensures no_mode { AskForNothing (codes "proofspace" ∷ []) }
    ensures other { AskForNothing (codes "proofspace" ∷ codes "refut" ∷ []) }
    ensures two { AskForNothing (after_refute (codes "refute" ∷ [])) }
{}

/// A number outside of the range of its option is refused.
pub fn numbers_are_in_range()
    ensures explorers { AskForNothing (after_refute (codes "--explorers" ∷ codes "17" ∷ [])) }
    ensures provers { AskForNothing (after_refute (codes "--provers" ∷ codes "0" ∷ [])) }
    ensures nodes { AskForNothing (after_refute (codes "--nodes" ∷ codes "0" ∷ [])) }
    ensures many_nodes { AskForNothing (after_refute (codes "--nodes" ∷ codes "65537" ∷ [])) }
    ensures traces { AskForNothing (after_refute (codes "--traces" ∷ codes "4097" ∷ [])) }
    ensures width { AskForNothing (after_refute (codes "--width" ∷ codes "3" ∷ [])) }
    ensures size { AskForNothing (after_refute (codes "--size" ∷ codes "17" ∷ [])) }
{}

/// An option has one whole number, and is given once.
pub fn options_have_one_number()
    ensures none { AskForNothing (after_refute (codes "--nodes" ∷ [])) }
    ensures text { AskForNothing (after_refute (codes "--nodes" ∷ codes "many" ∷ [])) }
    ensures negative { AskForNothing (after_refute (codes "--nodes" ∷ codes "-1" ∷ [])) }
    ensures twice { AskForNothing (after_refute
        (codes "--nodes" ∷ codes "1" ∷ codes "--nodes" ∷ codes "1" ∷ [])) }
{}

/// Other options, and requests for help, are refused.
pub fn other_options_are_refused()
    ensures unknown { AskForNothing (after_refute (codes "--workers" ∷ codes "1" ∷ [])) }
    ensures shortened { AskForNothing (after_refute (codes "--node" ∷ codes "1" ∷ [])) }
    ensures help { AskForNothing (after_refute (codes "--help" ∷ [])) }
    ensures short_help { AskForNothing (after_refute (codes "-h" ∷ [])) }
    ensures version { AskForNothing (after_refute (codes "--version" ∷ [])) }
{}

/// Beside plain words, a number may follow `=`, and options may stand before the mode.
pub fn other_forms_are_taken()
    ensures joined { AskFor (after_refute (codes "--nodes=7" ∷ []))
        (words_given Refute ((Nodes, 7) ∷ [])) }
    ensures before { AskFor
        (codes "proofspace" ∷ codes "--explorers=3" ∷ codes "--traces" ∷ codes "0" ∷ codes "replay" ∷ [])
        (words_given Replay ((Explorers, 3) ∷ ((Traces, 0) ∷ []))) }
{}

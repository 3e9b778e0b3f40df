//! Worked examples of what traces are proved: each function does no work, and its clause is the example.
ghost use Rattle.std.specs.Prelude.{[], ◌∷◌, List};
ghost use Rattle.ps_atom.specs.declared.atom.Atom.{Atom};
ghost use Rattle.ps_triple.specs.Examples.{counter_entries};
ghost use Rattle.ps_basis.specs.Space.{InSpace, IsProved};
ghost use Rattle.ps_triple.specs.declared.entry.Entry.{Entry};

/// Two threads add 1 to the counter one after another, and then the second finds it below 1: this is proved not to run.
pub fn three_letters_are_proved()
    ensures { IsProved counter_entries ((0, 0) ∷ (1, 0) ∷ (1, 2) ∷ []) }
{}

/// A thread that finds the counter below 1 at first isn't.
pub fn one_letter_is_not_proved()
    ensures { ¬ IsProved counter_entries ((0, 2) ∷ []) }
{}

/// The empty trace has no triple.
pub fn no_letter_has_no_triple()
    ensures { (entries : List Entry) (before after : List Atom)
        → ¬ InSpace entries [] before after }
{}

//! Facts about what inputs are owed, which readers and callers cite: each function does no
//! work, and its clause is the fact.
ghost use Rattle.std.specs.Prelude.{◌≡◌, ◌↔◌, ℕ, ◌<◌, List, [], ◌∷◌, length, Contains};
ghost use Rattle.ps_modes.specs.Modes.{SaysNotSo, SaysSo, owed_by};
ghost use Rattle.ps_modes.specs.Owes.{IsShort, Owes};
ghost use Rattle.ps_modes.specs.declared.input.TheConstants.{MOST_BYTES};
ghost use Rattle.ps_modes.specs.declared.status.Status.{Status};
ghost use Rattle.ps_modes.specs.declared.status.Status.TheVariants.{Holds, Fails, BadInput};
ghost use Rattle.ps_modes.specs.declared.texts.TheConstants.{TOO_LONG};
ghost use Rattle.ps_words.specs.declared.mode.Mode.{Mode};

/// An input is owed one status and one text at most, whatever the mode.
pub fn one_answer_is_owed()
    ensures { (mode : Mode) (input : List ℕ) (s t : Status) (x y : List ℕ)
        → Owes (owed_by mode) input s x → Owes (owed_by mode) input t y → (s ≡ t) × (x ≡ y) }
{}

/// An input that is too long is owed one line, whatever the mode.
pub fn a_long_input_is_owed_one_line()
    ensures { (mode : Mode) (input : List ℕ) (status : Status) (text : List ℕ)
        → MOST_BYTES < length input
        → (Owes (owed_by mode) input status text ↔ ((status ≡ BadInput) × (text ≡ TOO_LONG.now))) }
{}

/// A mode owes status 0 exactly where the input says what it asks for, 1 exactly where the input says that this isn't so,
/// each with its text, and beside them a refusal alone.
pub fn what_inputs_say_is_owed()
    ensures holds { (mode : Mode) (input text : List ℕ)
        → (Owes (owed_by mode) input Holds text ↔ (IsShort input × SaysSo mode input text)) }
    ensures fails { (mode : Mode) (input text : List ℕ)
        → (Owes (owed_by mode) input Fails text ↔ (IsShort input × SaysNotSo mode input text)) }
    ensures statuses { (mode : Mode) (input : List ℕ) (status : Status) (text : List ℕ)
        → Owes (owed_by mode) input status text
        → Contains (Holds ∷ Fails ∷ BadInput ∷ []) status }
{}

//! Facts about the texts of programs and their faults: each function does no work, and its clause is the fact.

ghost use Rattle.std.specs.Prelude.{◌≡◌, ◌++◌, ℕ, false, List, [], ◌∷◌};
ghost use Rattle.ps_token.specs.Lexing.{AreTokens};
ghost use Rattle.ps_token.specs.declared.place.Place.{Place};
ghost use Rattle.ps_token.specs.declared.token.Token.{Token};
ghost use Rattle.ps_tree.specs.declared.program.Program.{Program};
ghost use Rattle.ps_grammar.specs.Programs.{IsProgram, IsProgramText};
ghost use Rattle.ps_grammar.specs.Words.{Word};
ghost use Rattle.ps_parse.specs.Causes.{AreRefused, HasNoCause, IsClean, words_at};
ghost use Rattle.ps_parse.specs.Parts.{HasOwnCause, is_second_name};
ghost use Rattle.ps_parse.specs.Reads.{BeginAlike, IsFirstGrammarFault, IsText, PassesGrammar, StandsInText};
ghost use Rattle.ps_parse.specs.declared.read_refusal.ReadRefusal.TheVariants as refusal;
ghost use Rattle.ps_parse.specs.Texts.{GrammarIsFault, IsAnswered, IsFirstRefusal, IsInText, IsRefused};
ghost use Rattle.ps_parse.specs.declared.read_refusal.ReadRefusal.{ReadRefusal};

/// Words are one program at most.
pub fn one_program()
    ensures { (words : List Word) (p q : Program) → IsProgramText words p → IsProgramText words q
        → p ≡ q }
{}

/// Words have one first fault of the grammar at most, and none where they are a program.
pub fn one_fault()
    ensures one { (words : List Word) (end p q : Place) → IsFirstGrammarFault words end p
        → IsFirstGrammarFault words end q → p ≡ q }
    ensures none { (words : List Word) (end place : Place) (p : Program)
        → IsFirstGrammarFault words end place → ¬ IsProgramText words p }
{}

/// No other refusal stands after the first fault of the grammar, and none at it but a second name of a product.
pub fn faults_go_first()
    ensures after { (words : List Word) (end p : Place) (fault : IsFirstGrammarFault words end p)
        (e : ReadRefusal) (other : StandsInText words end e)
        → (tail : List Word) × (fault.before ≡ other.before ++ tail) }
    ensures at { (words : List Word) (end p : Place) (fault : IsFirstGrammarFault words end p)
        (e : ReadRefusal) (other : StandsInText words end e) → PassesGrammar e
        → ¬ (fault.before ≡ other.before) }
{}

/// Bytes spell at most one program.
pub fn one_program_of_bytes()
    ensures { (bytes : List ℕ) (p q : Program) → IsProgram bytes p → IsProgram bytes q → p ≡ q }
{}

/// Words are a program exactly where they are a text of the grammar and none of them has a cause of a refusal.
pub fn programs_have_no_cause()
    ensures text { (words : List Word) (program : Program) → IsProgramText words program
        → IsText words × HasNoCause words }
    ensures program { (words : List Word) → IsText words → HasNoCause words
        → (program : Program) × IsProgramText words program }
{}

/// A text is refused in one way at most, and not where it is a program; one that has tokens is a program or refused.
pub fn one_answer()
    ensures one { (bytes : List ℕ) (e f : ReadRefusal) → IsRefused bytes e → IsRefused bytes f
        → e ≡ f }
    ensures none { (bytes : List ℕ) (program : Program) (e : ReadRefusal)
        → IsProgram bytes program → ¬ IsRefused bytes e }
    ensures some { (bytes : List ℕ) (list : List Token) → AreTokens bytes list
        → IsAnswered bytes }
    // What `read_program` promises of a refusal of the words is that it refuses them.
    ensures promised { (bytes : List ℕ) (e : ReadRefusal) → IsFirstRefusal bytes e
        → IsInText bytes e → GrammarIsFault bytes e → IsRefused bytes e }
{}

/// The first word with a cause and the first fault of the grammar decide how words are refused, each found apart from the
/// other.
pub fn in_parts()
    // The cause does, where the words before it go on as some text of the grammar, and with its word too unless that is a
    // second name of a product.
    ensures cause { (words : List Word) (end : Place) (e : ReadRefusal)
        (c : HasOwnCause words end e) (others : List Word) → IsText (words_at c.first.back others)
        → (PassesGrammar e → BeginAlike c.first.ahead others) → AreRefused words end e }
    // The fault does, where no word before it has a cause, and it is no second name of a product.
    ensures fault { (words : List Word) (end p : Place) (f : IsFirstGrammarFault words end p)
        (back : List Word) → f.before ≡ words_at back [] → IsClean back f.rest
        → is_second_name back f.rest ≡ false → AreRefused words end (refusal.Grammar p) }
    // A fault at one of the first words is that of all.
    ensures front { (front rest : List Word) (end after p : Place) (w : Word) (ws : List Word)
        (f : IsFirstGrammarFault front end p) → f.rest ≡ w ∷ ws
        → IsFirstGrammarFault (front ++ rest) after p }
{}

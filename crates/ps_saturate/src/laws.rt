//! Facts about answers and saturated entries: each function does no work, and its clause is the fact.
ghost use Rattle.std.specs.Prelude.{◌≡◌, ◌<◌, ◌≤◌, ◌++◌, ◌↔◌, ℕ, List, All, Contains, length, take};
ghost use Rattle.ps_atom.specs.declared.predicate.Predicate.{Predicate};
ghost use Rattle.ps_command.specs.declared.setting.Setting.{Setting};
ghost use Rattle.ps_saturate.specs.Answered.{IsAnswerTo};
ghost use Rattle.ps_saturate.specs.Patterns.{IsSubject};
ghost use Rattle.ps_saturate.specs.Saturated.{AreThere, IsAnswered, IsSaturated, KeepsFalse, NamesFirst};
ghost use Rattle.ps_saturate.specs.declared.pattern.Pattern.{Pattern};
ghost use Rattle.ps_saturate.specs.declared.question.Question.{Question};
ghost use Rattle.ps_triple.specs.declared.entry.Entry.{Entry};

/// Before any predicate is known, every post, command and pattern is answered.
pub fn nothing_is_asked_at_first()
    ensures { (setting : Setting) (predicates : List Predicate) (entries : List Entry)
        (width post command : ℕ) (pattern : Pattern)
        → IsAnswered setting predicates 0 entries width post command pattern }
{}

/// Where a post, command and pattern was answered for the predicates that a question knew before, and the entries of an answer
/// to the question are there, it is answered for those that the question knows now. So answers to questions one after another
/// answer it for all predicates.
pub fn answers_follow_one_another()
    ensures { (setting : Setting) (predicates : List Predicate) (question : Question) (width : ℕ)
        (answer entries : List Entry)
        → IsAnswerTo setting predicates question width answer → AreThere answer entries
        → IsAnswered setting predicates question.old entries width question.post
        question.command question.pattern
        → IsAnswered setting predicates question.now entries width question.post
        question.command question.pattern }
{}

/// With more entries what was answered stays answered, and what was saturated stays so, where they name no other predicates.
pub fn more_entries_keep_it()
    ensures answered { (setting : Setting) (predicates : List Predicate) (some all : List Entry)
        (known width post command : ℕ) (pattern : Pattern)
        → ((entry : Entry) → Contains some entry → Contains all entry)
        → IsAnswered setting predicates known some width post command pattern
        → IsAnswered setting predicates known all width post command pattern }
    ensures saturated { (setting : Setting) (predicates : List Predicate) (some all : List Entry)
        (width : ℕ)
        → ((entry : Entry) → Contains some entry → Contains all entry)
        → All (NamesFirst (length predicates)) all
        → IsSaturated setting predicates some width → IsSaturated setting predicates all width }
{}

/// Whether a post, command and pattern is answered for the first predicates doesn't depend on those after them.
pub fn later_predicates_change_nothing()
    ensures { (setting : Setting) (predicates more : List Predicate) (entries : List Entry)
        (known width post command : ℕ) (pattern : Pattern)
        → known ≤ length predicates → post < length predicates
        → IsAnswered setting predicates known entries width post command pattern
        ↔ IsAnswered setting (predicates ++ more) known entries width post command pattern }
{}

/// Entries that name only the first predicates, keep false by every command, and answer every post, command and pattern of these
/// predicates for them, are saturated for them.
pub fn all_answered_is_saturated()
    ensures { (setting : Setting) (predicates : List Predicate) (entries : List Entry)
        (known width : ℕ) → known ≤ length predicates → All (NamesFirst known) entries
        → ((command : ℕ) → command < length setting.commands → KeepsFalse entries command)
        → ((post command : ℕ) (pattern : Pattern)
        → IsSubject setting (take known predicates) post command pattern
        → IsAnswered setting predicates known entries width post command pattern)
        → IsSaturated setting (take known predicates) entries width }
{}

/// A question has one answer.
pub fn answers_are_one()
    ensures { (setting : Setting) (predicates : List Predicate) (question : Question) (width : ℕ)
        (one other : List Entry) → IsAnswerTo setting predicates question width one
        → IsAnswerTo setting predicates question width other → one ≡ other }
{}

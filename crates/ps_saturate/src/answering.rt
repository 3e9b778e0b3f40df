//! The answer to a question.
ghost use Rattle.std.specs.Prelude.{◌≡◌, ◌<◌, ◌++◌, ◌∷◌, [], All, IfNone, IfOk, IfSome, IsErrOf, OnOk, length, nat_lt, not};
ghost use Rattle.std.specs.List.{list_any};
ghost use Rattle.ps_saturate.specs.Answered.{IsAnswerTo};
ghost use Rattle.ps_saturate.specs.Asked.{IsQuestion};
ghost use Rattle.ps_saturate.specs.inner.Trials.{AreFound, GivesNothing, IsReady, IsTrialOf, is_new, new_entries};
ghost use Rattle.ps_term.specs.Negation.{NegationFits};
ghost use Rattle.ps_term.specs.Substitution.{SubstitutionFits};
ghost use Rattle.ps_triple.specs.Faults.{EntryHolds};
ghost use Rattle.ps_triple.specs.Rows.{atom_row, form_in, negated, row_after};
ghost use Rattle.ps_triple.specs.Tests.{HasThreadsOnce, IsAtomOf};

use crate::answer::Answer;
use crate::choosing::choices;
use crate::question::Question;
use crate::threads::{post_threads, thread_count};
use crate::trial::Trial;
use crate::walk::walk;
use ps_atom::{Atom, Predicate, Predicates, Threads};
use ps_command::Setting;
use ps_list::copies;
use ps_term::{Row, TermEnd};
use ps_triple::{Entry, Triple, denied_row};
use std::alloc::{AllocError, Global};

/// The triples that the question asks for: for each set of at most `width` atoms that it asks for, that is refuted before the
/// command and the post, and of which no part is, the triple with this set before the command. The sets are ordered by size,
/// and those of one size by the first atom that differs. A set is refuted where the elimination refutes its rows and no sum of
/// them in row order leaves 128 bits; the multipliers are those of the elimination.
///
/// Each set that has no refuted part takes one elimination, but for those of `width` atoms that aren't asked for. The rows of
/// the command and of the post are made once, and so is the row of each atom; all of them stay in memory, with the triples that
/// were found.
pub fn answer_question(
    alloc: Global,
    setting: &Setting,
    predicates: &Predicates,
    question: &Question,
    width: u32,
) -> Result<Answer, AllocError>
    requires { IsQuestion setting.now predicates.now question.now }
    ensures question { IfOk result (λ answer. answer.question ≡ question.entry.now) }
    ensures setting { IfOk result (λ answer. answer.setting ≡ setting.now) }
    ensures predicates { IfOk result (λ answer. answer.predicates ≡ predicates.now) }
    ensures width { IfOk result (λ answer. answer.width ≡ width) }
    ensures answer { IfOk result (λ answer. IsAnswerTo setting.now predicates.now
        question.entry.now width answer.entries) }
    ensures hold { IfOk result (λ answer. All (EntryHolds setting.now predicates.now)
        answer.entries) }
{
    let list = predicates.list();
    let entries = entries_for(alloc, setting, list, *question, width)?;
    Ok(Answer::new(setting, predicates, *question, width, entries))
}

// The entries of the answer.
fn entries_for(
    alloc: Global,
    setting: &Setting,
    predicates: &[Predicate],
    question: Question,
    width: u32,
) -> Result<Vec<Entry>, AllocError>
    requires { IsQuestion setting.now predicates.now question }
    ensures { IfOk result (λ entries. IsAnswerTo setting.now predicates.now question width
        entries.items) }
{
    match trial_of(alloc, setting, predicates, question, width)? {
        Some(trial) => {
            let found = found_by(alloc, &trial)?;
            new_entries(alloc, question.old, found)
        }
        None => Ok(Vec::new(alloc)),
    }
}

// What the sets are tried with, or `None` where no set is asked for or none can be refuted: no predicate is known, the post
// isn't in range, or its row leaves 128 bits.
fn trial_of<'a>(
    alloc: Global,
    setting: &'a Setting,
    predicates: &'a [Predicate],
    question: Question,
    width: u32,
) -> Result<Option<Trial<'a>>, AllocError>
    requires { IsQuestion setting.now predicates.now question }
    ensures ready { IfOk result (λ found. IfSome found IsReady) }
    ensures trial { IfOk result (λ found. IfSome found
        (IsTrialOf setting.now predicates.now question width)) }
    ensures nothing { IfOk result (λ found. IfNone found
        (GivesNothing setting.now predicates.now question width)) }
{
    let predicate = &predicates[question.post as usize];
    if question.now == 0 || !predicate.is_in_range(setting.globals, setting.locals) {
        return Ok(None);
    }
    let threads = post_threads(alloc, question.pattern, predicate.arity)?;
    let post = Atom {
        predicate: question.post,
        threads: Threads::from_slice(alloc, threads.as_slice())?,
    };
    match common_rows(alloc, setting, predicates, question.command, &post) {
        Ok(rows) => Ok(Some(Trial {
            setting,
            predicates,
            question,
            width,
            post,
            rows,
        })),
        Err(TermEnd::Past128) => Ok(None),
        Err(TermEnd::Memory(end)) => Err(end),
    }
}

// The rows of the command, and the one that the post fails after it.
fn common_rows(
    alloc: Global,
    setting: &Setting,
    predicates: &[Predicate],
    command: u32,
    post: &Atom,
) -> Result<Vec<Row>, TermEnd>
    requires command { command < length setting.now.commands }
    requires post { IsAtomOf setting.now predicates.now post.now }
    requires once { HasThreadsOnce post.now }
    ensures rows { IfOk result (λ rows. rows.items
        ≡ (form_in setting.now command).rows ++ row_after (form_in setting.now command)
        (negated (atom_row predicates.now post.now)) ∷ []) }
    ensures fits { OnOk result (NegationFits (atom_row predicates.now post.now)
        × SubstitutionFits (form_in setting.now command).after
        (negated (atom_row predicates.now post.now)).term) }
    ensures past { IsErrOf result TermEnd.Past128
        → ¬ (NegationFits (atom_row predicates.now post.now)
        × SubstitutionFits (form_in setting.now command).after
        (negated (atom_row predicates.now post.now)).term) }
{
    let form = &setting.symbols.as_slice()[command as usize];
    let last = denied_row(alloc, setting, predicates, form, post)?;
    let mut rows = copies(alloc, form.rows.as_slice()).map_err(TermEnd::Memory)?;
    match rows.push(last) {
        Ok(()) => Ok(rows),
        Err(_) => Err(TermEnd::Memory(AllocError)),
    }
}

// The triples of the least sets of the trial, by size.
fn found_by(alloc: Global, trial: &Trial<'_>) -> Result<Vec<Triple>, AllocError>
    requires ready { IsReady trial.now }
    requires question { IsQuestion trial.now.setting.now trial.now.predicates.now
        trial.now.question }
    requires some { 0 < trial.now.question.now }
    ensures { IfOk result (λ found. AreFound trial.now found.items) }
{
    let question = &trial.question;
    let slots = trial.predicates[question.post as usize].arity;
    let threads = thread_count(question.pattern, slots);
    let list = choices(
        alloc,
        trial.setting,
        trial.predicates,
        question.now,
        &trial.post,
        threads,
    )?;
    let members = list.as_slice();
    let most = members.len().min(trial.width as usize);
    let none = Vec::new(alloc);
    let mut found = Vec::new(alloc);
    for size in 0..most + 1 {
        found = walk(alloc, trial, none.as_slice(), members, size, found)?;
    }
    Ok(found)
}

// The triples of the sets that weren't asked for where there were `old` predicates.
fn new_entries(alloc: Global, old: u32, found: Vec<Triple>) -> Result<Vec<Entry>, AllocError>
    ensures { IfOk result (λ entries. entries.items ≡ new_entries old found.items) }
{
    let mut entries = Vec::new(alloc);
    for triple in found {
        if !is_new(old, triple.pre.as_slice()) {
            continue;
        }
        entries.push(Entry::Triple(triple))?;
    }
    Ok(entries)
}

// Whether the set wasn't asked for where there were `old` predicates.
fn is_new(old: u32, set: &[Atom]) -> bool
    ensures { result ≡ is_new old set.now }
{
    old == 0 || has_new_atom(old, set)
}

// Whether the predicate of some atom wasn't among the first `old`.
fn has_new_atom(old: u32, set: &[Atom]) -> bool
    ensures { result ≡ list_any (λ q. not (nat_lt q.predicate old)) set.now }
{
    for atom in set {
        if atom.predicate >= old {
            return true;
        }
    }
    false
}

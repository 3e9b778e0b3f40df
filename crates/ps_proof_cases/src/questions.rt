//! Which triples a proof's predicates give.
ghost use Rattle.std.specs.Prelude.{IsTrue};
ghost use Rattle.ps_saturate.specs.Asked.{IsQuestion};
ghost use Rattle.ps_saturate.specs.Patterns.{FitsSlots, IsSubject};

use ps_atom::Predicate;
use ps_atom_text::put_entry;
use ps_case::{read_number, two_parts, word};
use ps_case_space::{Space, space_and_rest};
use ps_command::Setting;
use ps_saturate::{Pattern, Question, answer_question};
use ps_triple::Entry;
use std::alloc::{AllocError, Global};

/// The lines of the triples that a question asks for, or `none`: `PROGRAM|PROOF|POST COMMAND PATTERN OLD NOW WIDTH`, with
/// the pattern `none`, `mover SLOT` or `other`.
pub fn answer(alloc: Global, input: &str) -> Result<Vec<u8>, AllocError> {
    let (space, asked) = space_and_rest(alloc, input)?;
    let (question, width) = read_question(asked)?;
    answer_in(alloc, &space, &question, width)
}

fn answer_in(
    alloc: Global,
    space: &Space,
    question: &Question,
    width: u32,
) -> Result<Vec<u8>, AllocError> {
    let setting = &space.graph.setting;
    if !is_question(setting, space.predicates.list(), question) {
        return Err(AllocError);
    }
    let answer = answer_question(alloc, setting, &space.predicates, question, width)?;
    if answer.question() != *question {
        return word(alloc, "another question");
    }
    shown(alloc, answer.into_entries().as_slice())
}

// The question, with the width.
fn read_question(text: &str) -> Result<(Question, u32), AllocError> {
    let (post, rest) = two_parts(text, ' ')?;
    let (command, rest) = two_parts(rest, ' ')?;
    let (pattern, rest) = read_pattern(rest)?;
    let (old, rest) = two_parts(rest, ' ')?;
    let (now, width) = two_parts(rest, ' ')?;
    let question = Question {
        post: read_number(post)?,
        command: read_number(command)?,
        pattern,
        old: read_number(old)?,
        now: read_number(now)?,
    };
    Ok((question, read_number(width)?))
}

fn read_pattern(text: &str) -> Result<(Pattern, &str), AllocError> {
    let (name, rest) = two_parts(text, ' ')?;
    match name {
        "none" => Ok((Pattern::None, rest)),
        "other" => Ok((Pattern::Other, rest)),
        "mover" => {
            let (slot, rest) = two_parts(rest, ' ')?;
            Ok((Pattern::Mover(read_number(slot)?), rest))
        }
        _ => Err(AllocError),
    }
}

// Whether the question can be asked.
fn is_question(setting: &Setting, predicates: &[Predicate], question: &Question) -> bool
    ensures { IsTrue result → IsQuestion setting.now predicates.now question.entry.now }
{
    is_subject(setting, predicates, question) && question.now as usize <= predicates.len()
}

fn is_subject(setting: &Setting, predicates: &[Predicate], question: &Question) -> bool
    ensures { IsTrue result → IsSubject setting.now predicates.now question.entry.now.post
        question.entry.now.command question.entry.now.pattern }
{
    if question.post as usize >= predicates.len()
        || question.command as usize >= setting.commands.as_slice().len()
    {
        return false;
    }
    let slots = predicates[question.post as usize].arity;
    slots <= 2 && fits_slots(question.pattern, slots)
}

fn fits_slots(pattern: Pattern, slots: u32) -> bool
    ensures { IsTrue result → FitsSlots pattern slots }
{
    match pattern {
        Pattern::None => slots == 0,
        Pattern::Mover(slot) => slot < slots,
        Pattern::Other => slots > 0,
    }
}

fn shown(alloc: Global, entries: &[Entry]) -> Result<Vec<u8>, AllocError> {
    if entries.is_empty() {
        return word(alloc, "none");
    }
    let mut out = Vec::new(alloc);
    for entry in entries {
        put_entry(&mut out, entry)?;
    }
    Ok(out)
}

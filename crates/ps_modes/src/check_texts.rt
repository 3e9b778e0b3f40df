//! The lines on proofs that aren't accepted.
ghost use Rattle.std.specs.Prelude.{◌≡◌, string_bytes, IfOk};
ghost use Rattle.ps_check.specs.declared.fault.CheckFault.TheVariants.{Entry, Uncovered};
ghost use Rattle.ps_modes.specs.CheckTexts.{check_fault_text, not_accepted_line, number_or, uncovered_text};

use ps_check::CheckFault;
use ps_triple::EntryFault;
use std::alloc::{AllocError, Global};
use std::string::String;

/// `not accepted: FAULT`, ended by a line feed.
pub(crate) fn not_accepted_line(alloc: Global, fault: &CheckFault) -> Result<Vec<u8>, AllocError>
    ensures { IfOk result (λ text. text.items ≡ not_accepted_line fault.now) }
{
    let what = check_fault_text(alloc, fault)?;
    let what = what.as_str();
    let text = format!(in alloc; "not accepted: {what}\n")?;
    Ok(text.into_bytes())
}

/// What is wrong with a proof.
fn check_fault_text(alloc: Global, fault: &CheckFault) -> Result<String, AllocError>
    ensures { IfOk result (λ text. string_bytes text ≡ check_fault_text fault.now) }
{
    match *fault {
        CheckFault::Predicate(n) => format!(in alloc; "predicate {n}: bad number"),
        CheckFault::Entry(n, fault) => entry_text(alloc, n, fault),
        CheckFault::ConfigNumber(n) => format!(in alloc; "config {n}: bad number"),
        CheckFault::ConfigThread(n) => format!(in alloc; "config {n}: thread twice"),
        CheckFault::Accepting(n) => format!(in alloc; "config {n} is accepting"),
        CheckFault::Uncovered {
            config,
            edge,
            thread,
        } => step_text(alloc, config, edge, thread),
    }
}

/// What is wrong with the entry of this number.
fn entry_text(alloc: Global, n: u32, fault: EntryFault) -> Result<String, AllocError>
    ensures { IfOk result (λ text. string_bytes text ≡ check_fault_text (Entry n fault)) }
{
    match fault {
        EntryFault::BadNumber => format!(in alloc; "entry {n}: bad number"),
        EntryFault::ThreadTwice => format!(in alloc; "entry {n}: thread twice"),
        EntryFault::FreeThread => format!(in alloc; "entry {n}: free thread"),
        EntryFault::Length { found, rows } => {
            format!(in alloc; "entry {n}: {found} multipliers for {rows} rows")
        }
        EntryFault::Past128 => format!(in alloc; "entry {n}: past 128 bits"),
        EntryFault::Sum => format!(in alloc; "entry {n}: sum is no positive constant"),
    }
}

/// That the step back isn't covered.
fn step_text(
    alloc: Global,
    config: Option<u32>,
    edge: u32,
    thread: Option<u32>,
) -> Result<String, AllocError>
    ensures { IfOk result (λ text. string_bytes text
        ≡ check_fault_text (Uncovered config edge thread)) }
{
    let config = number_or(alloc, config, "start")?;
    let thread = number_or(alloc, thread, "new")?;
    step_line(alloc, config.as_str(), edge, thread.as_str())
}

/// That the step back isn't covered, from and by what is named so.
fn step_line(alloc: Global, config: &str, edge: u32, thread: &str) -> Result<String, AllocError>
    ensures { IfOk result (λ text. string_bytes text
        ≡ uncovered_text config.now edge thread.now) }
{
    format!(in alloc; "config {config} edge {edge} thread {thread} is not covered")
}

/// The number in decimal, or the word where there is none.
fn number_or(alloc: Global, number: Option<u32>, word: &str) -> Result<String, AllocError>
    ensures { IfOk result (λ text. string_bytes text ≡ number_or number word.now) }
{
    match number {
        Some(n) => format!(in alloc; "{n}"),
        None => String::from_str(alloc, word),
    }
}

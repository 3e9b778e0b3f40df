//! Reading witnesses, with the first fault.
ghost use Rattle.std.specs.Prelude.{◌≡◌, ◌+◌, ◌<◌, ◌≤◌, ◌^◌, codes, length, IfOk, None, Ok};
ghost use Rattle.ps_lines.specs.Tokens.{text_bytes};
ghost use Rattle.ps_lines.specs.Reading.{text_start, while_at, Gives, Reads, Tells};
ghost use Rattle.ps_trace.specs.declared.witness.Witness.{Witness};
ghost use Rattle.ps_trace_text.specs.WitnessReading.{all_locals_at, globals_at, locals_at, step_at, values_at, version_at, witness_at};
ghost use Rattle.ps_trace_text.specs.WitnessSpelling.{witness_lines, WitnessFits};

use crate::due_thread::DueThread;
use ps_list::Sequence;
use ps_text::{FormEnd, FormFault, FormName, Integer, Reader, Until, list, take_leaf};
use ps_trace::{Step, Steps, Witness};
use std::alloc::Global;

/// How many threads a witness may have.
pub const MOST_THREADS: u32 = 4_096;

/// How many steps a witness may have.
pub const MOST_STEPS: u32 = 1_048_576;

// Values up to the end of the line.
#[tactic(auto, unfolding(crate::specs::WitnessReading::values_at, ps_lines::specs::Steps::and_then))]
fn take_values<'a>(alloc: Global, reader: &mut Reader<'a>) -> Result<Sequence<i128>, FormEnd>
    ensures { Gives (λ x. x) result reader.new (values_at reader.old) }
{
    let values = list::<Integer>(alloc, &Until::LineEnd, reader)?;
    reader.end()?;
    Ok(Sequence::from_list(values))
}

// The line `witness 1`.
#[tactic(auto, unfolding(crate::specs::WitnessReading::version_at, ps_lines::specs::Steps::and_then))]
fn take_version<'a>(reader: &mut Reader<'a>) -> Result<(), FormFault>
    ensures { Reads (λ x. x) result reader.new (version_at reader.old) }
{
    reader.line(b"witness")?;
    reader.word(b"1")?;
    reader.end()
}

#[tactic(auto, unfolding(crate::specs::WitnessReading::globals_at, ps_lines::specs::Steps::and_then))]
fn take_globals<'a>(alloc: Global, reader: &mut Reader<'a>) -> Result<Sequence<i128>, FormEnd>
    ensures { Gives (λ x. x) result reader.new (globals_at reader.old) }
{
    reader.line(b"globals")?;
    take_values(alloc, reader)
}

// The line of the thread after the one before.
#[tactic(auto, unfolding(crate::specs::WitnessReading::locals_at, ps_lines::specs::Steps::and_then))]
fn take_locals<'a>(
    alloc: Global,
    before: Option<u32>,
    reader: &mut Reader<'a>,
) -> Result<Sequence<i128>, FormEnd>
    ensures { Gives (λ x. x) result reader.new (locals_at before reader.old) }
{
    reader.line(b"locals")?;
    take_leaf::<DueThread>(before, reader)?;
    take_values(alloc, reader)
}

// The lines of so many threads.
#[tactic(auto, using(crate::proofs::ThreadLines::lines_none, crate::proofs::ThreadLines::lines_more, crate::proofs::ThreadLines::lines_all, crate::proofs::ThreadLines::lines_fail))]
fn take_all_locals<'a>(
    alloc: Global,
    count: u32,
    reader: &mut Reader<'a>,
) -> Result<Vec<Sequence<i128>>, FormEnd>
    ensures { Gives (λ v. v.items) result reader.new (all_locals_at None count reader.old) }
{
    let mut list = Vec::new(alloc);
    let mut before = None;
    for thread in 0..count {
        let locals = take_locals(alloc, before, reader)?;
        list.push(locals)?;
        before = Some(thread);
    }
    Ok(list)
}

// A line `step` with a thread and choices.
#[tactic(auto, unfolding(crate::specs::WitnessReading::step_at, ps_lines::specs::Steps::and_then))]
fn take_step<'a>(alloc: Global, reader: &mut Reader<'a>) -> Result<Step, FormEnd>
    ensures { Gives (λ x. x) result reader.new (step_at reader.old) }
{
    reader.line(b"step")?;
    let thread = reader.natural32()?;
    let choices = take_values(alloc, reader)?;
    Ok(Step { thread, choices })
}

// Such lines, as long as one follows, and at most `limit`.
#[tactic(auto, using(ps_lines::proofs::Loop::whiles_none, ps_lines::proofs::Loop::whiles_more, ps_lines::proofs::Loop::whiles_stop, ps_lines::proofs::Loop::whiles_limit))]
fn take_steps<'a>(alloc: Global, limit: u32, reader: &mut Reader<'a>) -> Result<Steps, FormEnd>
    ensures { Gives (λ x. x) result reader.new
        (while_at (codes "step") step_at limit reader.old) }
{
    let mut steps = Steps::new(alloc);
    for _ in 0..limit {
        if !reader.begins(b"step") {
            return Ok(steps);
        }
        let step = take_step(alloc, reader)?;
        steps.push(&step)?;
    }
    if reader.begins(b"step") {
        return Err(FormEnd::Fault(reader.line_fault(FormName::Limit)));
    }
    Ok(steps)
}

#[tactic(auto, unfolding(crate::specs::WitnessReading::witness_at, ps_lines::specs::Steps::and_then))]
fn whole(alloc: Global, bytes: &[u8], first: u32) -> Result<Witness, FormEnd>
    requires from_one { 1 ≤ first }
    requires room { first + length bytes.now < 2 ^ 32 }
    ensures { Tells (λ x. x) result (witness_at (text_start first bytes.now)) }
{
    let mut reader = Reader::new(bytes, first);
    take_version(&mut reader)?;
    let count = reader.header(b"threads", MOST_THREADS)?;
    let globals = take_globals(alloc, &mut reader)?;
    let locals = take_all_locals(alloc, count, &mut reader)?;
    let locals = Sequence::from_list(locals);
    let steps = take_steps(alloc, MOST_STEPS, &mut reader)?;
    reader.only(b"end")?;
    reader.done()?;
    Ok(Witness {
        globals,
        locals,
        steps,
    })
}

/// The witness that the bytes spell, all of the bytes, or the first fault. Lines count from `first`.
/// Looks at each byte some ten times; takes memory for the result alone.
pub fn read_witness(alloc: Global, bytes: &[u8], first: u32) -> Result<Witness, FormEnd>
    requires from_one { 1 ≤ first }
    requires room { first + length bytes.now < 2 ^ 32 }
    // What is read is spelled so, and is within the limits.
    ensures found { IfOk result
        (λ witness. WitnessFits witness × (bytes.now ≡ text_bytes (witness_lines witness))) }
    // What is spelled so is read, unless memory runs out.
    ensures only { (witness : Witness) → WitnessFits witness
        → bytes.now ≡ text_bytes (witness_lines witness) → Tells (λ x. x) result (Ok witness) }
    // Which fault it is.
    ensures exact { Tells (λ x. x) result (witness_at (text_start first bytes.now)) }
{
    whole(alloc, bytes, first)
}

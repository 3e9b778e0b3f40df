//! The mode `replay`: whether the witness of the input reaches a failure of its program.
ghost use Rattle.std.specs.Prelude.{◌≡◌, ℕ, ◌+◌, ◌<◌, ◌≤◌, ◌^◌, List, [], ◌∷◌, length, IfOk, IfSome};
ghost use Rattle.std.specs.Io.KnownBytes.{Appends};
ghost use Rattle.ps_graph.specs.Errors.{IsGraphOf};
ghost use Rattle.ps_modes.specs.Owes.{IsShort};
ghost use Rattle.ps_modes.specs.Parts.{OwedToTexts};
ghost use Rattle.ps_modes.specs.Promise.{Answers, HasCauses};
ghost use Rattle.ps_modes.specs.Replay.{IsRefusedInput, Owed, OwedOf, OwedToWitness, Refusal, SaysReached, SaysUnreached};
ghost use Rattle.ps_modes.specs.Status.{code, Exactly, IsOneOf};
ghost use Rattle.ps_modes.specs.declared.status.Status.TheVariants.{Holds, Fails, BadInput, ReadFault, WriteFault, NoMemory};
ghost use Rattle.ps_tree.specs.declared.program.Program.{Program};

use crate::answer::{Answer, answer_line, fault_answer};
use crate::frame::answer_input;
use crate::graphs::{graph_said, refusal_answer};
use crate::judge::Judge;
use crate::status::Status;
use crate::texts::{LIMIT_PART, NO, NO_MARK, PAST, YES};
use ps_command::RunEnd;
use ps_graph::Graph;
use ps_io::{Sink, Source};
use ps_parts::{MOST_WITNESS, PartsEnd, two_parts};
use ps_text::FormEnd;
use ps_trace::{Witness, replay};
use ps_trace_text::read_witness;
use std::alloc::{AllocError, Global};

/// Reads the source to its end, and writes `yes` or `no`, or the line that refuses the input. Returns always.
///
/// The answer is made whole before anything is written.
pub fn replay_run<S: Source, K: Sink>(alloc: Global, source: &mut S, sink: &mut K) -> u8
    ensures statuses { IsOneOf result
        (Holds ∷ Fails ∷ BadInput ∷ ReadFault ∷ WriteFault ∷ NoMemory ∷ []) }
    ensures yes { IfSome (S.left source.old)
        (λ input. Exactly result Holds (IsShort input × SaysReached input)) }
    ensures yes_text { result ≡ code Holds
        → Appends (K.written sink.old) (K.written sink.new) YES.now }
    ensures no { IfSome (S.left source.old)
        (λ input. Exactly result Fails (IsShort input × SaysUnreached input)) }
    ensures no_text { result ≡ code Fails
        → Appends (K.written sink.old) (K.written sink.new) NO.now }
    ensures refused { IfSome (S.left source.old)
        (λ input. Exactly result BadInput (IsRefusedInput input)) }
    ensures refused_text { result ≡ code BadInput → IfSome (S.left source.old) (λ input.
        (text : List ℕ) × Refusal input text
        × Appends (K.written sink.old) (K.written sink.new) text) }

    // What every mode promises.
    ensures answers { Answers Owed (S.left source.old) (K.written sink.old) (K.written sink.new)
        result }
    ensures causes { HasCauses
        (record {
          left = S.left source.old;
          left_after = S.left source.new;
          faults = S.faults source.old;
          faults_after = S.faults source.new;
          failed_after = S.failed source.new;
        })
        (record {
          written = K.written sink.old;
          written_after = K.written sink.new;
          faults = K.faults sink.old;
          faults_after = K.faults sink.new;
        })
        result }
{
    answer_input(alloc, &Replay, source, sink)
}

/// Answers a program and a witness.
struct Replay;

impl Judge for Replay {
    ghost owed = { λ _. Owed };

    fn judge(&self, alloc: Global, input: &[u8]) -> Result<Answer, AllocError> {
        match two_parts(input, MOST_WITNESS) {
            Ok(parts) => judge_texts(alloc, parts.program, parts.last.bytes, parts.last.line),
            Err(PartsEnd::NoMark) => answer_line(alloc, Status::BadInput, NO_MARK),
            Err(PartsEnd::LimitPart) => answer_line(alloc, Status::BadInput, LIMIT_PART),
        }
    }
}

/// The answer to the texts of a program and of a witness, the second of which begins at this line.
fn judge_texts(
    alloc: Global,
    program: &[u8],
    witness: &[u8],
    line: u32,
) -> Result<Answer, AllocError>
    requires program { length program.now + 1 < 2 ^ 32 }
    requires from_one { 1 ≤ line }
    requires room { line + length witness.now < 2 ^ 32 }
    ensures { IfOk result (λ answer. OwedToTexts OwedToWitness program.now witness.now line
        answer.status answer.text.items) }
{
    match graph_said(alloc, program) {
        Ok(graph) => judge_witness(alloc, &graph, witness, line),
        Err(end) => refusal_answer(end),
    }
}

/// The answer to the graph of a program and the text of a witness, which begins at this line.
fn judge_witness(alloc: Global, graph: &Graph, text: &[u8], line: u32) -> Result<Answer, AllocError>
    requires few { length graph.now.edges < 2 ^ 32 }
    requires from_one { 1 ≤ line }
    requires room { line + length text.now < 2 ^ 32 }
    ensures { (program : Program) → IsGraphOf program graph.now → IfOk result (λ answer.
        OwedToWitness program graph.now text.now line answer.status answer.text.items) }
{
    match read_witness(alloc, text, line) {
        Ok(witness) => judge_replay(alloc, graph, &witness),
        Err(FormEnd::Fault(fault)) => fault_answer(alloc, &fault),
        Err(FormEnd::Memory(end)) => Err(end),
    }
}

/// The answer to the graph of a program and a witness.
fn judge_replay(alloc: Global, graph: &Graph, witness: &Witness) -> Result<Answer, AllocError>
    requires { length graph.now.edges < 2 ^ 32 }
    ensures { (program : Program) → IsGraphOf program graph.now → IfOk result (λ answer.
        OwedOf program graph.now witness.now answer.status answer.text.items) }
{
    match replay(alloc, graph, witness) {
        Ok(yes) => {
            if yes {
                answer_line(alloc, Status::Holds, YES)
            } else {
                answer_line(alloc, Status::Fails, NO)
            }
        }
        Err(RunEnd::Past128) => answer_line(alloc, Status::BadInput, PAST),
        Err(RunEnd::Memory(end)) => Err(end),
    }
}

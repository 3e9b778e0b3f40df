//! The mode `check`: whether the proof of the input is accepted for its program.
ghost use Rattle.std.specs.Prelude.{◌≡◌, ℕ, ◌+◌, ◌<◌, ◌≤◌, ◌^◌, List, [], ◌∷◌, length, IfOk, IfSome};
ghost use Rattle.std.specs.Io.KnownBytes.{Appends};
ghost use Rattle.ps_basis.specs.declared.limits.TheConstants.{MOST_ENTRIES};
ghost use Rattle.ps_check.specs.declared.fault.CheckFault.{CheckFault};
ghost use Rattle.ps_modes.specs.Check.{IsRefusedInput, Owed, OwedOf, OwedToProof, Refusal, SaysAccepted, SaysFault, SaysSafe};
ghost use Rattle.ps_modes.specs.CheckTexts.{not_accepted_line};
ghost use Rattle.ps_modes.specs.Owes.{IsShort};
ghost use Rattle.ps_modes.specs.Parts.{OwedToTexts};
ghost use Rattle.ps_modes.specs.Promise.{Answers, HasCauses};
ghost use Rattle.ps_modes.specs.Status.{code, Exactly, IsOneOf};
ghost use Rattle.ps_modes.specs.declared.status.Status.TheVariants.{Holds, Fails, BadInput, ReadFault, WriteFault, NoMemory};
ghost use Rattle.ps_tree.specs.declared.program.Program.{Program};

use crate::answer::{Answer, answer_line, fault_answer};
use crate::check_texts::not_accepted_line;
use crate::frame::answer_input;
use crate::graphs::{graph_said, refusal_answer};
use crate::judge::Judge;
use crate::status::Status;
use crate::texts::{ACCEPTED, LIMIT_PART, NO_MARK};
use ps_check::{Judgement, check};
use ps_file::{Proof, read_proof};
use ps_graph::Graph;
use ps_io::{Sink, Source};
use ps_parts::{MOST_PROOF, PartsEnd, two_parts};
use ps_text::FormEnd;
use std::alloc::{AllocError, Global};

/// Reads the source to its end, and writes `accepted`, or `not accepted` with the first fault, or the line that refuses
/// the input. Returns always.
///
/// The answer is made whole before anything is written.
pub fn check_run<S: Source, K: Sink>(alloc: Global, source: &mut S, sink: &mut K) -> u8
    ensures statuses { IsOneOf result
        (Holds ∷ Fails ∷ BadInput ∷ ReadFault ∷ WriteFault ∷ NoMemory ∷ []) }
    ensures accepted { IfSome (S.left source.old)
        (λ input. Exactly result Holds (IsShort input × SaysAccepted input)) }
    ensures accepted_text { result ≡ code Holds
        → Appends (K.written sink.old) (K.written sink.new) ACCEPTED.now }

    // No execution of the program, with any number of threads, fails an assertion.
    ensures safe { result ≡ code Holds → IfSome (S.left source.old) SaysSafe }
    ensures not_accepted { IfSome (S.left source.old) (λ input.
        Exactly result Fails (IsShort input × ((fault : CheckFault) × SaysFault input fault))) }
    ensures fault_text { result ≡ code Fails → IfSome (S.left source.old) (λ input.
        (fault : CheckFault) × SaysFault input fault
        × Appends (K.written sink.old) (K.written sink.new) (not_accepted_line fault)) }
    ensures refused { IfSome (S.left source.old)
        (λ input. Exactly result BadInput (IsRefusedInput input)) }
    ensures refused_text { result ≡ code BadInput → IfSome (S.left source.old) (λ input.
        (text : List ℕ) × Refusal input text
        × Appends (K.written sink.old) (K.written sink.new) text) }

    // What every mode promises.
    ensures answers { Answers Owed (S.left source.old) (K.written sink.old) (K.written sink.new)
        result }
    ensures causes { HasCauses
        (record {
          left = S.left source.old;
          left_after = S.left source.new;
          faults = S.faults source.old;
          faults_after = S.faults source.new;
          failed_after = S.failed source.new;
        })
        (record {
          written = K.written sink.old;
          written_after = K.written sink.new;
          faults = K.faults sink.old;
          faults_after = K.faults sink.new;
        })
        result }
{
    answer_input(alloc, &Check, source, sink)
}

/// Answers a program and a proof.
struct Check;

impl Judge for Check {
    ghost owed = { λ _. Owed };

    fn judge(&self, alloc: Global, input: &[u8]) -> Result<Answer, AllocError> {
        match two_parts(input, MOST_PROOF) {
            Ok(parts) => judge_texts(alloc, parts.program, parts.last.bytes, parts.last.line),
            Err(PartsEnd::NoMark) => answer_line(alloc, Status::BadInput, NO_MARK),
            Err(PartsEnd::LimitPart) => answer_line(alloc, Status::BadInput, LIMIT_PART),
        }
    }
}

/// The answer to the texts of a program and of a proof, the second of which begins at this line.
fn judge_texts(alloc: Global, program: &[u8], proof: &[u8], line: u32) -> Result<Answer, AllocError>
    requires program { length program.now + 1 < 2 ^ 32 }
    requires from_one { 1 ≤ line }
    requires room { line + length proof.now < 2 ^ 32 }
    ensures { IfOk result (λ answer. OwedToTexts OwedToProof program.now proof.now line
        answer.status answer.text.items) }
{
    match graph_said(alloc, program) {
        Ok(graph) => judge_proof(alloc, &graph, proof, line),
        Err(end) => refusal_answer(end),
    }
}

/// The answer to the graph of a program and the text of a proof, which begins at this line.
fn judge_proof(alloc: Global, graph: &Graph, text: &[u8], line: u32) -> Result<Answer, AllocError>
    requires from_one { 1 ≤ line }
    requires room { line + length text.now < 2 ^ 32 }
    ensures { (program : Program) → IfOk result (λ answer.
        OwedToProof program graph.now text.now line answer.status answer.text.items) }
{
    match read_proof(alloc, text, line) {
        Ok(proof) => judge_check(alloc, graph, &proof),
        Err(FormEnd::Fault(fault)) => fault_answer(alloc, &fault),
        Err(FormEnd::Memory(end)) => Err(end),
    }
}

/// The answer to the graph of a program and a proof.
fn judge_check(alloc: Global, graph: &Graph, proof: &Proof) -> Result<Answer, AllocError>
    requires predicates { length proof.now.predicates ≤ 127 }
    requires entries { length proof.now.entries ≤ MOST_ENTRIES }
    ensures { IfOk result (λ answer.
        OwedOf graph.now proof.now answer.status answer.text.items) }
{
    match check(alloc, graph, proof)? {
        Judgement::Accepted => answer_line(alloc, Status::Holds, ACCEPTED),
        Judgement::Refused(fault) => Ok(Answer {
            status: Status::Fails,
            text: not_accepted_line(alloc, &fault)?,
        }),
    }
}

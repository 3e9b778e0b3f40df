//! The mode `member`: whether the entries of the proof of the input hold, and prove the trace of the input.
ghost use Rattle.std.specs.Prelude.{◌≡◌, ℕ, ◌+◌, ◌<◌, ◌≤◌, ◌↔◌, ◌^◌, List, [], ◌∷◌, length, All, IfOk, IfSome, IsTrue};
ghost use Rattle.std.specs.Io.KnownBytes.{Appends};
ghost use Rattle.ps_basis.specs.declared.limits.TheConstants.{MOST_ENTRIES};
ghost use Rattle.ps_modes.specs.Inner.Lines.{HasRoom};
ghost use Rattle.ps_modes.specs.Member.{IsRefusedInput, Owed, OwedOf, OwedToTraceOf, OwedToTwo, Proves, Refusal, SaysInfeasible, SaysProved, SaysUnproved};
ghost use Rattle.ps_modes.specs.Owes.{IsShort};
ghost use Rattle.ps_modes.specs.Parts.{OwedToTexts};
ghost use Rattle.ps_modes.specs.Promise.{Answers, HasCauses};
ghost use Rattle.ps_modes.specs.Status.{code, Exactly, IsOneOf};
ghost use Rattle.ps_modes.specs.declared.status.Status.TheVariants.{Holds, Fails, BadInput, ReadFault, WriteFault, NoMemory};
ghost use Rattle.ps_tree.specs.declared.program.Program.{Program};

use crate::answer::{Answer, answer_line, fault_answer};
use crate::frame::answer_input;
use crate::graphs::{graph_said, refusal_answer};
use crate::judge::Judge;
use crate::status::Status;
use crate::texts::{LIMIT_PART, NO, NO_MARK, YES};
use ps_basis::Front;
use ps_check::do_entries_hold;
use ps_file::{Proof, read_proof};
use ps_graph::Graph;
use ps_io::{Sink, Source};
use ps_member::member;
use ps_parts::{MOST_PROOF, MOST_WITNESS, Part, PartsEnd, three_parts};
use ps_text::FormEnd;
use ps_trace::{IndexedTrace, Letter};
use ps_trace_text::read_trace;
use std::alloc::{AllocError, Global};

/// Reads the source to its end, and writes `yes` or `no`, or the line that refuses the input. Returns always.
///
/// The answer is made whole before anything is written.
pub fn member_run<S: Source, K: Sink>(alloc: Global, source: &mut S, sink: &mut K) -> u8
    ensures statuses { IsOneOf result
        (Holds ∷ Fails ∷ BadInput ∷ ReadFault ∷ WriteFault ∷ NoMemory ∷ []) }
    ensures yes { IfSome (S.left source.old)
        (λ input. Exactly result Holds (IsShort input × SaysProved input)) }
    ensures yes_text { result ≡ code Holds
        → Appends (K.written sink.old) (K.written sink.new) YES.now }

    // If the trace is an error trace, it runs from no initial state.
    ensures infeasible { result ≡ code Holds → IfSome (S.left source.old) SaysInfeasible }
    ensures no { IfSome (S.left source.old)
        (λ input. Exactly result Fails (IsShort input × SaysUnproved input)) }
    ensures no_text { result ≡ code Fails
        → Appends (K.written sink.old) (K.written sink.new) NO.now }
    ensures refused { IfSome (S.left source.old)
        (λ input. Exactly result BadInput (IsRefusedInput input)) }
    ensures refused_text { result ≡ code BadInput → IfSome (S.left source.old) (λ input.
        (text : List ℕ) × Refusal input text
        × Appends (K.written sink.old) (K.written sink.new) text) }

    // What every mode promises.
    ensures answers { Answers Owed (S.left source.old) (K.written sink.old) (K.written sink.new)
        result }
    ensures causes { HasCauses
        (record {
          left = S.left source.old;
          left_after = S.left source.new;
          faults = S.faults source.old;
          faults_after = S.faults source.new;
          failed_after = S.failed source.new;
        })
        (record {
          written = K.written sink.old;
          written_after = K.written sink.new;
          faults = K.faults sink.old;
          faults_after = K.faults sink.new;
        })
        result }
{
    answer_input(alloc, &Member, source, sink)
}

/// Answers a program, a proof and a trace.
struct Member;

impl Judge for Member {
    ghost owed = { λ _. Owed };

    fn judge(&self, alloc: Global, input: &[u8]) -> Result<Answer, AllocError> {
        match three_parts(input, MOST_PROOF, MOST_WITNESS) {
            Ok(parts) => judge_texts(alloc, parts.program, parts.middle, parts.last),
            Err(PartsEnd::NoMark) => answer_line(alloc, Status::BadInput, NO_MARK),
            Err(PartsEnd::LimitPart) => answer_line(alloc, Status::BadInput, LIMIT_PART),
        }
    }
}

/// The answer to the texts of a program, of a proof and of a trace.
fn judge_texts(
    alloc: Global,
    program: &[u8],
    proof: Part<'_>,
    trace: Part<'_>,
) -> Result<Answer, AllocError>
    requires program { length program.now + 1 < 2 ^ 32 }
    requires proof { HasRoom proof.bytes.now proof.line }
    requires trace { HasRoom trace.bytes.now trace.line }
    ensures { IfOk result (λ answer. OwedToTexts
        (OwedToTwo proof.entry.bytes.now proof.entry.line)
        program.now trace.entry.bytes.now trace.entry.line answer.status answer.text.items) }
{
    match graph_said(alloc, program) {
        Ok(graph) => judge_proof(alloc, &graph, proof, trace),
        Err(end) => refusal_answer(end),
    }
}

/// The answer to the graph of a program and the texts of a proof and of a trace.
fn judge_proof(
    alloc: Global,
    graph: &Graph,
    text: Part<'_>,
    trace: Part<'_>,
) -> Result<Answer, AllocError>
    requires proof { HasRoom text.bytes.now text.line }
    requires trace { HasRoom trace.bytes.now trace.line }
    ensures { (program : Program) → IfOk result (λ answer.
        OwedToTwo text.entry.bytes.now text.entry.line program graph.now
        trace.entry.bytes.now trace.entry.line answer.status answer.text.items) }
{
    match read_proof(alloc, text.bytes, text.line) {
        Ok(proof) => judge_trace(alloc, graph, proof, trace),
        Err(FormEnd::Fault(fault)) => fault_answer(alloc, &fault),
        Err(FormEnd::Memory(end)) => Err(end),
    }
}

/// The answer to the graph of a program, a proof and the text of a trace.
fn judge_trace(
    alloc: Global,
    graph: &Graph,
    proof: Proof,
    text: Part<'_>,
) -> Result<Answer, AllocError>
    requires predicates { length proof.predicates ≤ 127 }
    requires entries { length proof.entries ≤ MOST_ENTRIES }
    requires trace { HasRoom text.bytes.now text.line }
    ensures { IfOk result (λ answer. OwedToTraceOf graph.now proof
        text.entry.bytes.now text.entry.line answer.status answer.text.items) }
{
    match read_trace(alloc, text.bytes, text.line) {
        Ok(trace) => judge_member(alloc, graph, proof, &trace),
        Err(FormEnd::Fault(fault)) => fault_answer(alloc, &fault),
        Err(FormEnd::Memory(end)) => Err(end),
    }
}

/// The answer to the graph of a program, a proof and a trace.
fn judge_member(
    alloc: Global,
    graph: &Graph,
    proof: Proof,
    trace: &IndexedTrace,
) -> Result<Answer, AllocError>
    requires predicates { length proof.predicates ≤ 127 }
    requires entries { length proof.entries ≤ MOST_ENTRIES }
    ensures { IfOk result (λ answer.
        OwedOf graph.now proof trace.now answer.status answer.text.items) }
{
    let proved = is_proved(alloc, graph, proof, trace)?;
    if proved {
        answer_line(alloc, Status::Holds, YES)
    } else {
        answer_line(alloc, Status::Fails, NO)
    }
}

/// Whether each edge of the trace exists, each entry of the proof holds, and the entries prove the trace.
fn is_proved(
    alloc: Global,
    graph: &Graph,
    proof: Proof,
    trace: &IndexedTrace,
) -> Result<bool, AllocError>
    requires predicates { length proof.predicates ≤ 127 }
    requires entries { length proof.entries ≤ MOST_ENTRIES }
    ensures { IfOk result (λ yes. IsTrue yes ↔ Proves graph.now proof trace.now) }
{
    if !do_edges_exist(graph, trace.letters.as_slice()) {
        return Ok(false);
    }
    let held = do_entries_hold(alloc, graph, &proof)?;
    if !held {
        return Ok(false);
    }
    let Proof { entries, .. } = proof;
    let front = Front::indexed(alloc, entries.into_list())?;
    member(alloc, graph, &front, trace)
}

/// Whether the edge of each letter exists.
fn do_edges_exist(graph: &Graph, letters: &[Letter]) -> bool
    ensures { IsTrue result ↔ All (λ l. l.edge < length graph.now.edges) letters.now }
{
    let edges = graph.edges.as_slice().len();
    letters.iter().all(|letter| (letter.edge as usize) < edges)
}

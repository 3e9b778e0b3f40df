//! The program of an input: its graph, or the line that refuses it.
ghost use Rattle.std.specs.Prelude.{◌≡◌, ℕ, ◌+◌, ◌<◌, ◌^◌, List, length, Some, IfOk, IfErr};
ghost use Rattle.ps_compile.specs.Conditions.{IsCompilable};
ghost use Rattle.ps_grammar.specs.Programs.{IsProgram};
ghost use Rattle.ps_modes.specs.Inner.Graphs.{IfLine, IsGraphSaid, IsRefusal};
ghost use Rattle.ps_modes.specs.Programs.{RefusesBy};
ghost use Rattle.ps_modes.specs.declared.status.Status.TheVariants.{BadInput};
ghost use Rattle.ps_parse.specs.Refusals.{refusal_text};

use crate::answer::Answer;
use crate::status::Status;
use ps_compile::{CompileEnd, compile};
use ps_graph::Graph;
use ps_parse::{ReadRefusal, read_program, refusal_line};
use ps_tree::Program;
use std::alloc::{AllocError, Global};

/// Why a text gives no graph.
#[derive(Debug, Drop)]
pub(crate) enum GraphEnd {
    /// This line refuses it.
    Refused(Vec<u8>),
    /// Want of memory.
    Memory(AllocError),
}

/// The graph of the program that the text says, or the line that refuses it.
pub(crate) fn graph_said(alloc: Global, text: &[u8]) -> Result<Graph, GraphEnd>
    requires { length text.now + 1 < 2 ^ 32 }
    ensures said { IfOk result (IsGraphSaid text.now) }
    ensures refused { IfErr result (IfLine (RefusesBy text.now)) }
{
    match read_program(alloc, text) {
        Ok(program) => graph_of(alloc, &program),
        Err(refusal) => Err(refused(alloc, &refusal)),
    }
}

/// The answer to an input whose program gives no graph.
pub(crate) fn refusal_answer(end: GraphEnd) -> Result<Answer, AllocError>
    ensures status { IfOk result (λ answer. answer.status ≡ BadInput) }
    ensures text { IfOk result (λ answer. IsRefusal end answer.text.items) }
{
    match end {
        GraphEnd::Refused(text) => Ok(Answer {
            status: Status::BadInput,
            text,
        }),
        GraphEnd::Memory(end) => Err(end),
    }
}

/// The graph of a program, or the line that names the first limit that it passes.
fn graph_of(alloc: Global, program: &Program) -> Result<Graph, GraphEnd>
    requires { IsCompilable program.now }
    ensures said { (text : List ℕ) → IsProgram text program.now → IfOk result (IsGraphSaid text) }
    ensures refused { (text : List ℕ) → IsProgram text program.now
        → IfErr result (IfLine (RefusesBy text)) }
{
    match compile(alloc, program) {
        Ok(graph) => Ok(graph),
        Err(CompileEnd::Limit(place, limit)) => {
            Err(refused(alloc, &ReadRefusal::Limit(place, limit)))
        }
        Err(CompileEnd::Memory(end)) => Err(GraphEnd::Memory(end)),
    }
}

/// The line of a refusal.
fn refused(alloc: Global, refusal: &ReadRefusal) -> GraphEnd
    ensures { IfLine (λ line. refusal_text refusal.now ≡ Some line) result }
{
    match refusal_line(alloc, refusal) {
        Ok(Some(text)) => GraphEnd::Refused(text),
        Ok(None) => GraphEnd::Memory(AllocError),
        Err(end) => GraphEnd::Memory(end),
    }
}

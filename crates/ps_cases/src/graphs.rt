//! The graphs of program texts, as texts: the number of locations, then ` SOURCE-TARGET:COMMAND` for each edge with its
//! picks (`*1` and `*0` for the choices of a `*`, `?` for a value), the ops of each command in braces, the rows that hold
//! once at the start, and those that hold for each thread; each part is ended by `;`. A row stands in brackets.
use crate::programs::program_of;
use crate::trees::put_var;
use ps_command::{Command, Op};
use ps_compile::laws::programs_are_compilable;
use ps_compile::{CompileEnd, compile};
use ps_graph::{Edge, Graph, Pick};
use ps_syntax::{ReadRefusal, refusal_line};
use ps_term::{Row, Term};
use ps_text::{put_digits, put_signed_digits, put_word};
use std::alloc::{AllocError, Global};

/// The graph of the text's program, or the line with the limit that is exceeded first.
pub fn graph(alloc: Global, text: &[u8]) -> Result<Vec<u8>, AllocError> {
    match compiled(alloc, text) {
        Ok(graph) => shown(alloc, &graph),
        Err(end) => refused(alloc, end),
    }
}

/// How many locations, edges and commands the graph has, or the line with the limit that is exceeded first.
pub fn size(alloc: Global, text: &[u8]) -> Result<Vec<u8>, AllocError> {
    match compiled(alloc, text) {
        Ok(graph) => Ok(format!(in alloc;
            "{} locations, {} edges, {} commands",
            graph.locations,
            graph.edges.as_slice().len(),
            graph.setting.commands.as_slice().len(),
        )?
        .into_bytes()),
        Err(end) => refused(alloc, end),
    }
}

// The line with the limit.
fn refused(alloc: Global, end: CompileEnd) -> Result<Vec<u8>, AllocError> {
    match end {
        CompileEnd::Limit(place, name) => {
            let refusal = ReadRefusal::Limit(place, name);
            refusal_line(alloc, &refusal)?.ok_or(AllocError)
        }
        CompileEnd::Memory(end) => Err(end),
    }
}

fn compiled(alloc: Global, text: &[u8]) -> Result<Graph, CompileEnd> {
    let program = program_of(alloc, text).map_err(CompileEnd::Memory)?;
    programs_are_compilable();
    compile(alloc, &program)
}

fn shown(alloc: Global, graph: &Graph) -> Result<Vec<u8>, AllocError> {
    let mut out = Vec::new(alloc);
    put_digits(&mut out, u128::from(graph.locations))?;
    put_edges(&mut out, graph.edges.as_slice())?;
    put_word(&mut out, b";")?;
    put_commands(&mut out, graph.setting.commands.as_slice())?;
    put_word(&mut out, b";")?;
    put_rows(&mut out, graph.setting.init_once.as_slice())?;
    put_word(&mut out, b";")?;
    put_rows(&mut out, graph.setting.init_each.as_slice())?;
    put_word(&mut out, b";")?;
    Ok(out)
}

fn put_edges(out: &mut Vec<u8>, edges: &[Edge]) -> Result<(), AllocError> {
    for edge in edges {
        put_word(out, b" ")?;
        put_digits(out, u128::from(edge.source))?;
        put_word(out, b"-")?;
        put_digits(out, u128::from(edge.target))?;
        put_word(out, b":")?;
        put_digits(out, u128::from(edge.command))?;
        put_picks(out, edge.picks.as_slice())?;
    }
    Ok(())
}

fn put_picks(out: &mut Vec<u8>, picks: &[Pick]) -> Result<(), AllocError> {
    for pick in picks {
        match pick {
            Pick::Star(true) => put_word(out, b"*1")?,
            Pick::Star(false) => put_word(out, b"*0")?,
            Pick::Value => put_word(out, b"?")?,
        }
    }
    Ok(())
}

fn put_commands(out: &mut Vec<u8>, commands: &[Command]) -> Result<(), AllocError> {
    for command in commands {
        put_word(out, b"{")?;
        for op in command.ops.as_slice() {
            put_op(out, op)?;
        }
        put_word(out, b"}")?;
    }
    Ok(())
}

fn put_op(out: &mut Vec<u8>, op: &Op) -> Result<(), AllocError> {
    match op {
        Op::Assume(row) => put_row(out, row),
        Op::Assign(variable, term) => {
            put_var(out, *variable)?;
            put_word(out, b"=")?;
            put_term(out, term)?;
            put_word(out, b".")
        }
        Op::Havoc(variable) => {
            put_word(out, b"havoc ")?;
            put_var(out, *variable)?;
            put_word(out, b".")
        }
    }
}

fn put_rows(out: &mut Vec<u8>, rows: &[Row]) -> Result<(), AllocError> {
    for row in rows {
        put_row(out, row)?;
    }
    Ok(())
}

fn put_row(out: &mut Vec<u8>, row: &Row) -> Result<(), AllocError> {
    put_word(out, b"[")?;
    put_term(out, &row.term)?;
    put_word(out, b"]")
}

// The products, and the constant.
fn put_term(out: &mut Vec<u8>, term: &Term) -> Result<(), AllocError> {
    for (variable, number) in term.pairs.as_slice() {
        put_word(out, b" ")?;
        put_signed_digits(out, *number)?;
        put_word(out, b"*")?;
        put_var(out, *variable)?;
    }
    put_word(out, b" ")?;
    put_signed_digits(out, term.constant)
}

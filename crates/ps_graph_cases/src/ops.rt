//! Commands as texts: ops, each ended by `;` or the end of the text. An op is `assume TERM`, `havoc VARIABLE` or
//! `VARIABLE := TERM`.
use ps_case::{read_term, read_variable};
use ps_command::{Command, Op};
use ps_list::Sequence;
use ps_term::Row;
use std::alloc::{AllocError, Global};

/// The command of the ops.
pub fn read_command(alloc: Global, text: &str) -> Result<Command, AllocError> {
    let mut ops = Vec::new(alloc);
    for part in text.split(';') {
        let part = part.trim();
        if !part.is_empty() {
            ops.push(read_op(alloc, part)?)?;
        }
    }
    Ok(Command {
        ops: Sequence::from_list(ops),
    })
}

fn read_op(alloc: Global, text: &str) -> Result<Op, AllocError> {
    if let Some(term) = text.strip_prefix("assume ") {
        return Ok(Op::Assume(Row {
            term: read_term(alloc, term)?,
        }));
    }
    if let Some(variable) = text.strip_prefix("havoc ") {
        return Ok(Op::Havoc(read_variable(variable)?));
    }
    let (variable, term) = text.split_once(" := ").ok_or(AllocError)?;
    Ok(Op::Assign(read_variable(variable)?, read_term(alloc, term)?))
}

//! Symbolic forms of commands.
use crate::ops::read_command;
use ps_case::{put_term, put_variable, word};
use ps_command::{Command, SymbolicForm, symbolic};
use ps_term::{Row, Term, TermEnd, Var};
use ps_text::{put_digits, put_word};
use std::alloc::{AllocError, Global};

/// The symbolic form of the ops, or `past`: its rows as assumes, the terms that variables are worth as assignments, each
/// ended by `; `, and how many havocs there are.
pub fn form(alloc: Global, input: &str) -> Result<Vec<u8>, AllocError> {
    let command = read_command(alloc, input)?;
    match form_of(alloc, &command) {
        Ok(form) => shown(alloc, &form),
        Err(TermEnd::Past128) => word(alloc, "past"),
        Err(TermEnd::Memory(end)) => Err(end),
    }
}

// A command of more than a thousand ops is no case.
fn form_of(alloc: Global, command: &Command) -> Result<SymbolicForm, TermEnd> {
    if command.ops.as_slice().len() > 1000 {
        return Err(TermEnd::Memory(AllocError));
    }
    symbolic(alloc, command)
}

fn shown(alloc: Global, form: &SymbolicForm) -> Result<Vec<u8>, AllocError> {
    let mut out = Vec::new(alloc);
    put_rows(&mut out, form.rows.as_slice())?;
    put_assignments(&mut out, form.after.as_slice())?;
    put_digits(&mut out, u128::from(form.havocs))?;
    put_word(&mut out, b" havocs")?;
    Ok(out)
}

/// Appends the rows as assumes, each ended by `; `.
pub(crate) fn put_rows(out: &mut Vec<u8>, rows: &[Row]) -> Result<(), AllocError> {
    for row in rows {
        put_word(out, b"assume ")?;
        put_term(out, &row.term)?;
        put_word(out, b"; ")?;
    }
    Ok(())
}

fn put_assignments(out: &mut Vec<u8>, after: &[(Var, Term)]) -> Result<(), AllocError> {
    for (variable, term) in after {
        put_variable(out, *variable)?;
        put_word(out, b" := ")?;
        put_term(out, term)?;
        put_word(out, b"; ")?;
    }
    Ok(())
}

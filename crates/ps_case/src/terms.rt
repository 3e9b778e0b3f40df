//! Terms as texts: pairs and a constant. `-1*g0 2*l1@5 1*h3 7` is -1 times global 0, 2 times local 1 of thread or slot 5,
//! once the havoc value 3, and 7.
use crate::words::{read_number, two_parts};
use ps_term::{Term, Var, add_scaled};
use ps_text::{put_digits, put_signed_digits, put_word, read_i128};
use std::alloc::{AllocError, Global};

/// The variable that the text is.
pub fn read_variable(text: &str) -> Result<Var, AllocError> {
    if let Some(global) = text.strip_prefix('g') {
        return Ok(Var::Global(read_number(global)?));
    }
    if let Some(havoc) = text.strip_prefix('h') {
        return Ok(Var::Havoc(read_number(havoc)?));
    }
    let (local, thread) = two_parts(text, '@')?;
    let local = local.strip_prefix('l').ok_or(AllocError)?;
    Ok(Var::Local(read_number(thread)?, read_number(local)?))
}

/// The sum of the products and numbers of the text.
pub fn read_term(alloc: Global, text: &str) -> Result<Term, AllocError> {
    let mut term = Term::from_constant(alloc, 0);
    for word in text.split_whitespace() {
        term = with_word(alloc, &term, word)?;
    }
    Ok(term)
}

fn with_word(alloc: Global, term: &Term, word: &str) -> Result<Term, AllocError> {
    let (by, more) = factor_and_term(alloc, word)?;
    add_scaled(alloc, term, by, &more).ok().ok_or(AllocError)
}

fn factor_and_term(alloc: Global, word: &str) -> Result<(i128, Term), AllocError> {
    match word.split_once('*') {
        Some((by, name)) => Ok((
            read_signed(by)?,
            Term::from_variable(alloc, read_variable(name)?)?,
        )),
        None => Ok((1, Term::from_constant(alloc, read_signed(word)?))),
    }
}

fn read_signed(text: &str) -> Result<i128, AllocError> {
    read_i128(text.as_bytes()).ok_or(AllocError)
}

/// Appends the variable.
pub fn put_variable(out: &mut Vec<u8>, variable: Var) -> Result<(), AllocError> {
    match variable {
        Var::Global(n) => put_lettered(out, b"g", n),
        Var::Local(thread, n) => {
            put_lettered(out, b"l", n)?;
            put_lettered(out, b"@", thread)
        }
        Var::Havoc(n) => put_lettered(out, b"h", n),
    }
}

fn put_lettered(out: &mut Vec<u8>, letter: &[u8], number: u32) -> Result<(), AllocError> {
    put_word(out, letter)?;
    put_digits(out, u128::from(number))
}

/// Appends the products of the term and its constant.
pub fn put_term(out: &mut Vec<u8>, term: &Term) -> Result<(), AllocError> {
    for (variable, by) in term.pairs.as_slice() {
        put_signed_digits(out, *by)?;
        put_word(out, b"*")?;
        put_variable(out, *variable)?;
        put_word(out, b" ")?;
    }
    put_signed_digits(out, term.constant)
}

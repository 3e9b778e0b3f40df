//! Texts of fields and of tokens: where they are cut, and the forms that are read from them.
use crate::rows::reader_of;
use ps_case::put_number;
use ps_rows::{print_rows, read_rows};
use ps_term_text::{put_term, take_term};
use ps_text::{
    FormEnd, FormFault, Place, Reader, Span, Token, TokenEnd, lines, put_digits, put_word, tokens,
};
use std::alloc::{AllocError, Global};

// Longer texts are no cases.
const MOST_BYTES: usize = 100_000;

fn put_two(out: &mut Vec<u8>, first: u32, mark: &[u8], second: u32) -> Result<(), AllocError> {
    put_number(out, first)?;
    put_word(out, mark)?;
    put_digits(out, u128::from(second))
}

/// The tokens, each as its kind, its first byte and the one after its last, and the line and column of its place; or where
/// the byte stands that starts none.
pub fn cut_tokens(alloc: Global, text: &[u8]) -> Result<Vec<u8>, AllocError> {
    if text.len() > MOST_BYTES {
        return Err(AllocError);
    }
    let mut out = Vec::new(alloc);
    match tokens(alloc, text) {
        Ok(list) => put_tokens(alloc, &mut out, list.as_slice())?,
        Err(TokenEnd::BadToken(place)) => put_bad(&mut out, place)?,
        Err(TokenEnd::Memory(end)) => return Err(end),
    }
    Ok(out)
}

fn put_bad(out: &mut Vec<u8>, place: Place) -> Result<(), AllocError> {
    put_word(out, b"bad")?;
    put_two(out, place.line, b":", place.column)
}

fn put_tokens(alloc: Global, out: &mut Vec<u8>, list: &[Token]) -> Result<(), AllocError> {
    put_word(out, b"tokens")?;
    for token in list {
        put_token(alloc, out, *token)?;
    }
    Ok(())
}

fn put_token(alloc: Global, out: &mut Vec<u8>, token: Token) -> Result<(), AllocError> {
    let kind = format!(in alloc; ", {:?}", token.kind)?;
    put_word(out, kind.as_bytes())?;
    put_two(out, token.start, b"-", token.end)?;
    put_two(out, token.place.line, b":", token.place.column)
}

/// The lines, which count from 7, each as its number and the first byte and the one after the last of each of its fields.
pub fn cut_lines(alloc: Global, text: &[u8]) -> Result<Vec<u8>, AllocError> {
    if text.len() > MOST_BYTES {
        return Err(AllocError);
    }
    let mut out = Vec::new(alloc);
    put_word(&mut out, b"lines")?;
    for line in lines(alloc, text, 7)? {
        let line = line.copy(alloc)?;
        put_word(&mut out, b",")?;
        put_number(&mut out, line.number)?;
        put_spans(&mut out, line.fields.as_slice())?;
    }
    Ok(out)
}

fn put_spans(out: &mut Vec<u8>, spans: &[Span]) -> Result<(), AllocError> {
    put_word(out, b":")?;
    for span in spans {
        put_two(out, span.start, b"-", span.end)?;
    }
    Ok(())
}

/// The term of a line's first fields, printed, and the fault where the line doesn't end after it; or its own fault.
pub fn read_a_term(alloc: Global, text: &[u8]) -> Result<Vec<u8>, AllocError> {
    let mut reader = reader_of(text)?;
    let mut out = Vec::new(alloc);
    match take_term(alloc, &mut reader) {
        Ok(term) => {
            put_term(&mut out, &term)?;
            put_ending(alloc, &mut out, &mut reader)?;
        }
        Err(FormEnd::Fault(fault)) => put_fault(alloc, &mut out, fault)?,
        Err(FormEnd::Memory(end)) => return Err(end),
    }
    Ok(out)
}

fn put_ending(alloc: Global, out: &mut Vec<u8>, reader: &mut Reader<'_>) -> Result<(), AllocError> {
    match reader.end() {
        Ok(()) => Ok(()),
        Err(fault) => put_fault(alloc, out, fault),
    }
}

fn put_fault(alloc: Global, out: &mut Vec<u8>, fault: FormFault) -> Result<(), AllocError> {
    let FormFault { line, field, what } = fault;
    let text = format!(in alloc; "; line {line} field {field}: {what:?}")?;
    put_word(out, text.as_bytes())
}

/// Rows and multipliers, read, copied and printed, or their first fault.
pub fn reprinted_rows(alloc: Global, text: &[u8]) -> Result<Vec<u8>, AllocError> {
    if text.len() > MOST_BYTES {
        return Err(AllocError);
    }
    let claim = read_rows(alloc, text, 5).ok().ok_or(AllocError)?;
    let copy = claim.copy(alloc)?;
    if copy.rows.as_slice().len() > MOST_BYTES {
        return Err(AllocError);
    }
    print_rows(alloc, &copy)
}

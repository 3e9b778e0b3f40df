//! Rows as inputs have them: lines `row TERM`.
use ps_term::Row;
use ps_term_text::take_term;
use ps_text::{FormEnd, Reader};
use std::alloc::{AllocError, Global};

// More rows are no case.
const MOST_ROWS: u32 = 1_000;

/// A reader of an input.
pub fn reader_of(input: &[u8]) -> Result<Reader<'_>, AllocError> {
    if input.len() > 100_000 {
        return Err(AllocError);
    }
    Ok(Reader::new(input, 1))
}

/// The rows that come next.
pub fn take_rows(alloc: Global, reader: &mut Reader<'_>) -> Result<Vec<Row>, AllocError> {
    let mut rows = Vec::new(alloc);
    for _ in 0..MOST_ROWS {
        if !reader.begins(b"row") {
            return Ok(rows);
        }
        let row = take_row(alloc, reader).ok().ok_or(AllocError)?;
        rows.push(row)?;
    }
    Err(AllocError)
}

fn take_row(alloc: Global, reader: &mut Reader<'_>) -> Result<Row, FormEnd> {
    reader.line(b"row")?;
    let term = take_term(alloc, reader)?;
    reader.end()?;
    Ok(Row { term })
}

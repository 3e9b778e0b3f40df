//! Rows that are refuted, eliminated and walked back.
use crate::rows::{reader_of, take_rows};
use ps_case::word;
use ps_elim::{Elim, Stage, eliminate, has_few_variables};
use ps_farkas::refutes;
use ps_list::Sequence;
use ps_term::{Row, Var};
use ps_text::{Natural, Reader, Until, list, put_natural, put_word};
use ps_walk::{Walk, integer_walk};
use std::alloc::{AllocError, Global};

/// Whether the multipliers of the line `by` after the rows refute them.
pub fn refuted(alloc: Global, input: &[u8]) -> Result<Vec<u8>, AllocError> {
    let mut reader = reader_of(input)?;
    let rows = take_rows(alloc, &mut reader)?;
    reader.line(b"by").ok().ok_or(AllocError)?;
    let multipliers = list::<Natural>(alloc, &Until::LineEnd, &mut reader)
        .ok()
        .ok_or(AllocError)?;
    match refutes(rows.as_slice(), multipliers.as_slice()) {
        Ok(true) => word(alloc, "yes"),
        Ok(false) => word(alloc, "no"),
        Err(_) => word(alloc, "past"),
    }
}

/// What comes of eliminating the rows' variables, by a copy of it.
pub fn eliminated(alloc: Global, input: &[u8]) -> Result<Vec<u8>, AllocError> {
    let mut reader = reader_of(input)?;
    let rows = take_rows(alloc, &mut reader)?;
    let answer = elimination_of(alloc, rows.as_slice())?;
    shown(alloc, &answer.copy(alloc)?)
}

fn elimination_of(alloc: Global, rows: &[Row]) -> Result<Elim, AllocError> {
    if rows.len() > 1_000 || !has_few_variables(rows) {
        return Err(AllocError);
    }
    eliminate(alloc, rows)
}

// The answer in short, with the vectors of each stage.
fn shown(alloc: Global, answer: &Elim) -> Result<Vec<u8>, AllocError> {
    match answer {
        Elim::Refuted(multipliers) => {
            let mut text = word(alloc, "refuted")?;
            put_numbers(&mut text, multipliers.as_slice())?;
            Ok(text)
        }
        Elim::Stages(stages) => {
            let mut text = word(alloc, "stages")?;
            put_stages(alloc, &mut text, stages.as_slice())?;
            Ok(text)
        }
        Elim::Past128 { stage } => Ok(format!(in alloc; "past {stage}")?.into_bytes()),
        Elim::TooWide { stage, count } => Ok(format!(in alloc;
            "wide {stage} {count}"
        )?.into_bytes()),
    }
}

fn put_stages(alloc: Global, text: &mut Vec<u8>, stages: &[Stage]) -> Result<(), AllocError> {
    for stage in stages {
        put_word(text, b";")?;
        for vector in stage.vectors.as_slice() {
            put_numbers(text, vector.to_list(alloc)?.as_slice())?;
            put_word(text, b",")?;
        }
    }
    Ok(())
}

fn put_numbers(text: &mut Vec<u8>, numbers: &[u128]) -> Result<(), AllocError> {
    for number in numbers {
        put_natural(text, *number)?;
    }
    Ok(())
}

/// What the walk over written stages comes to, by a copy of it: the given rows, and then for each stage a line
/// `stage N`, for the variable `gN`, and its rows. The vectors are left out, since the walk doesn't read them.
pub fn walked(alloc: Global, input: &[u8]) -> Result<Vec<u8>, AllocError> {
    let mut reader = reader_of(input)?;
    let rows = take_rows(alloc, &mut reader)?;
    let mut stages = Vec::new(alloc);
    for _ in 0..9 {
        if !reader.begins(b"stage") {
            break;
        }
        stages.push(take_stage(alloc, &mut reader)?)?;
    }
    walk_of(alloc, rows.as_slice(), stages.as_slice())
}

fn take_stage(alloc: Global, reader: &mut Reader<'_>) -> Result<Stage, AllocError> {
    let number = reader.header(b"stage", 9).ok().ok_or(AllocError)?;
    let rows = take_rows(alloc, reader)?;
    Ok(Stage {
        variable: Var::Global(number),
        vectors: Sequence::from_list(Vec::new(alloc)),
        rows: Sequence::from_list(rows),
    })
}

/// What the walk over the stages of the rows' elimination comes to, or what the elimination ends in otherwise.
pub fn solved(alloc: Global, input: &[u8]) -> Result<Vec<u8>, AllocError> {
    let mut reader = reader_of(input)?;
    let rows = take_rows(alloc, &mut reader)?;
    match elimination_of(alloc, rows.as_slice())? {
        Elim::Stages(stages) => walk_of(alloc, rows.as_slice(), stages.as_slice()),
        other => shown(alloc, &other),
    }
}

fn walk_of(alloc: Global, rows: &[Row], stages: &[Stage]) -> Result<Vec<u8>, AllocError> {
    if rows.len() > 1_000 {
        return Err(AllocError);
    }
    let walk = integer_walk(alloc, rows, stages)?;
    shown_walk(alloc, &walk.copy(alloc)?)
}

fn shown_walk(alloc: Global, walk: &Walk) -> Result<Vec<u8>, AllocError> {
    match walk {
        Walk::Values(values) => shown_values(alloc, values.as_slice()),
        Walk::NoInteger {
            variable,
            lower,
            upper,
        } => Ok(format!(in alloc; "none {variable:?} {lower} {upper}")?.into_bytes()),
        Walk::Misses { row } => Ok(format!(in alloc; "misses {row}")?.into_bytes()),
        Walk::Past128 => word(alloc, "past"),
    }
}

fn shown_values(alloc: Global, values: &[(Var, i128)]) -> Result<Vec<u8>, AllocError> {
    let mut text = word(alloc, "values")?;
    for (variable, value) in values {
        let pair = format!(in alloc; " {variable:?} {value}")?;
        put_word(&mut text, pair.as_bytes())?;
    }
    Ok(text)
}

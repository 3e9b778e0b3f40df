//! One case: its line, and what is wrong with what came.
use crate::escapes::bytes_of;
use crate::names::Names;
use std::alloc::{AllocError, Global};
use std::string::String;

/// A line `KIND INPUT -> EXPECTED`, by its parts. A line that isn't one has no kind.
#[derive(Clone, Copy)]
pub struct Case<'a> {
    line: &'a str,
    pub kind: &'a str,
    pub input: &'a str,
    expected: &'a str,
}

impl<'a> Case<'a> {
    pub(crate) fn of_line(line: &'a str) -> Case<'a> {
        let (given, expected) = line.split_once(" -> ").unwrap_or(("", ""));
        let (kind, input) = given.split_once(' ').unwrap_or(("", ""));
        Case {
            line,
            kind,
            input,
            expected,
        }
    }

    /// What is wrong, or nothing where what came is expected. A case without an answer isn't well written.
    pub(crate) fn fault(
        &self,
        alloc: Global,
        names: &Names,
        came: Result<Vec<u8>, AllocError>,
    ) -> Result<Option<String>, AllocError> {
        let line = self.line;
        let Ok(came) = came else {
            return Ok(Some(format!(in alloc; "not run: {line}")?));
        };
        match bytes_of(alloc, names, self.expected) {
            Ok(expected) => unexpected(alloc, line, expected.as_slice(), came.as_slice()),
            Err(_) => Ok(Some(format!(in alloc; "not run: {line}")?)),
        }
    }
}

fn unexpected(
    alloc: Global,
    line: &str,
    expected: &[u8],
    came: &[u8],
) -> Result<Option<String>, AllocError> {
    if expected == came {
        return Ok(None);
    }
    let text = match str::from_utf8(came) {
        Ok(text) => format!(in alloc; "failed: {line}\n  came {text:?}")?,
        Err(_) => format!(in alloc; "failed: {line}\n  came {came:?}")?,
    };
    Ok(Some(text))
}

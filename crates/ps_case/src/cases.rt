//! The lines of a program of cases: which are cases, which give a text a name, and how many ran.
use crate::case::Case;
use crate::escapes::bytes_of;
use crate::names::Names;
use crate::tally::Tally;
use std::alloc::{AllocError, Global};
use std::string::String;

/// The texts that have names so far, and how many cases ran of each kind.
#[derive(Drop)]
pub struct Cases {
    names: Names,
    tally: Tally,
}

impl Cases {
    pub fn new(alloc: Global) -> Cases {
        Cases {
            names: Names::new(alloc),
            tally: Tally::new(alloc),
        }
    }

    /// The case of the line, if it is one; it counts from now on. Empty lines and lines that begin with `#` are none, and a
    /// line `let NAME TEXT` gives a text a name.
    pub fn take<'a>(
        &mut self,
        alloc: Global,
        line: &'a str,
    ) -> Result<Option<Case<'a>>, AllocError> {
        if line.is_empty() || line.starts_with('#') {
            return Ok(None);
        }
        if let Some(named) = line.strip_prefix("let ") {
            self.names.define(alloc, named)?;
            return Ok(None);
        }
        let case = Case::of_line(line);
        self.tally.note(alloc, case.kind)?;
        Ok(Some(case))
    }

    /// The bytes of the case's input, or an error where it isn't well written.
    pub fn input(&self, alloc: Global, case: &Case<'_>) -> Result<Vec<u8>, AllocError> {
        bytes_of(alloc, &self.names, case.input)
    }

    /// What is wrong with the case, by what came of its input, or nothing where that is expected.
    pub fn fault(
        &self,
        alloc: Global,
        case: &Case<'_>,
        came: Result<Vec<u8>, AllocError>,
    ) -> Result<Option<String>, AllocError> {
        case.fault(alloc, &self.names, came)
    }

    /// A line for each kind that says how many cases ran, the last one without its line feed.
    pub fn tally(&self, alloc: Global) -> Result<String, AllocError> {
        self.tally.text(alloc)
    }
}

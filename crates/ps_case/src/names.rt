//! Texts that have names.
use crate::escapes::put_expanded;
use std::alloc::{AllocError, Global};
use std::string::String;

/// Each name with its text, whose repetitions and names are written out.
#[derive(Drop)]
pub(crate) struct Names {
    texts: Vec<(String, Vec<u8>)>,
}

impl Names {
    pub(crate) fn new(alloc: Global) -> Names {
        Names {
            texts: Vec::new(alloc),
        }
    }

    /// Takes `NAME TEXT`.
    pub(crate) fn define(&mut self, alloc: Global, named: &str) -> Result<(), AllocError> {
        let (name, text) = named.split_once(' ').ok_or(AllocError)?;
        let mut bytes = Vec::new(alloc);
        put_expanded(&mut bytes, self, text)?;
        self.texts.push((String::from_str(alloc, name)?, bytes))?;
        Ok(())
    }

    /// The text of the name.
    pub(crate) fn text(&self, name: &[u8]) -> Result<&[u8], AllocError> {
        for (known, text) in &self.texts {
            if known.as_bytes() == name {
                return Ok(text.as_slice());
            }
        }
        Err(AllocError)
    }
}

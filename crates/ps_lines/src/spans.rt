//! Lists of parts of a text.

ghost use Rattle.std.specs.Prelude.{◌≡◌, IfOk};

use crate::span::Span;
use std::alloc::{AllocError, Global};
use std::marker::Model;

/// A list of spans.
#[derive(Debug, Drop)]
pub struct Spans {
    list: Vec<Span>,
}

impl Model for Spans {
    ghost use Rattle.std.specs.Prelude.{List};
    ghost use Rattle.ps_lines.specs.declared.span.Span.{Span};

    ghost Value = { List Span };

    ghost view = { λ s. s.list.items };
}

impl Spans {
    /// Takes the list as it is; the call needs no memory.
    pub fn from_list(list: Vec<Span>) -> Spans
        ensures { result ≡ list.items }
    {
        Spans { list }
    }

    /// Gives the list back; the call needs no memory.
    pub fn into_list(self) -> Vec<Span>
        ensures { result.items ≡ self }
    {
        self.list
    }

    pub fn as_slice(&self) -> &[Span]
        ensures { result.now ≡ self.now }
    {
        self.list.as_slice()
    }

    /// A copy, in time and memory of the list's length.
    pub fn copy(&self, alloc: Global) -> Result<Spans, AllocError>
        ensures { IfOk result (λ spans. spans ≡ self.now) }
    {
        Ok(Spans {
            list: self.list.to_vec(alloc)?,
        })
    }
}

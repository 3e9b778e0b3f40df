//! Predicates: rows over globals and over the locals of slots.
ghost use Rattle.std.specs.Prelude.{◌≡◌, ◌↔◌, IsTrue, IfOk};
ghost use Rattle.ps_atom.specs.Range.{IsDeclared, IsInRange};

use ps_list::Duplicate;
use ps_term::{Row, Var};
use std::alloc::{AllocError, Global};

/// A row over globals, and over locals whose first number is a slot below the arity. An atom says
/// which thread stands in each slot.
#[derive(Debug, Drop)]
pub struct Predicate {
    pub arity: u32,
    pub row: Row,
}

impl Predicate {
    /// The greatest arity in range.
    pub const MOST_SLOTS: u32 = 4;

    /// Whether the arity is at most 4 and each variable of the row is one of so many globals, or of so
    /// many locals of a slot below the arity. A havoc isn't. In time of the number of pairs.
    pub fn is_in_range(&self, globals: u32, locals: u32) -> bool
        ensures { IsTrue result ↔ IsInRange globals locals self.now }
    {
        let arity = self.arity;
        arity <= Predicate::MOST_SLOTS
            && self
                .row
                .term
                .pairs
                .as_slice()
                .iter()
                .all(|pair| is_declared(globals, locals, arity, pair.0))
    }

    /// A copy, in time and memory of the number of pairs.
    pub fn copy(&self, alloc: Global) -> Result<Predicate, AllocError>
        ensures { IfOk result (λ predicate. predicate ≡ self.now) }
    {
        Ok(Predicate {
            arity: self.arity,
            row: self.row.copy(alloc)?,
        })
    }
}

impl Duplicate for Predicate {
    fn duplicate(&self, alloc: Global) -> Result<Predicate, AllocError> {
        self.copy(alloc)
    }
}

// Whether the variable is declared, or a declared local of a slot below the arity.
fn is_declared(globals: u32, locals: u32, arity: u32, variable: Var) -> bool
    ensures { IsTrue result ↔ IsDeclared globals locals arity variable }
{
    match variable {
        Var::Global(n) => n < globals,
        Var::Local(slot, n) => slot < arity && n < locals,
        Var::Havoc(_) => false,
    }
}

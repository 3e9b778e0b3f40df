//! Terms: whole-number combinations of variables plus a constant.
ghost use Rattle.std.specs.Prelude.{◌≡◌, [], IfOk};
ghost use Rattle.ps_term.specs.Term.{variable_term};

use crate::pairs::Pairs;
use crate::var::Var;
use ps_list::Duplicate;
use std::alloc::{AllocError, Global};
use thiserror::Error;

/// The sum of each coefficient times its variable, plus the constant.
#[derive(Debug, Drop)]
pub struct Term {
    pub pairs: Pairs,
    pub constant: i128,
}

/// Why no term was made.
#[derive(Debug, Drop, Error)]
pub enum TermEnd {
    /// A product or a partial sum lies outside `i128`.
    #[error("a value is past 128 bits")]
    Past128,
    /// No memory was left.
    #[error("out of memory")]
    Memory(AllocError),
}

impl Term {
    /// The term without variables of this value; the call needs no memory.
    pub fn from_constant(alloc: Global, constant: i128) -> Term
        ensures { result ≡ record { pairs = []; constant = constant } }
    {
        Term {
            pairs: Pairs::from_list(Vec::new(alloc)),
            constant,
        }
    }

    /// The term that is the variable.
    pub fn from_variable(alloc: Global, variable: Var) -> Result<Term, AllocError>
        ensures { IfOk result (λ term. term ≡ variable_term variable) }
    {
        Ok(Term {
            pairs: Pairs::from_list([(variable, 1)].to_vec(alloc)?),
            constant: 0,
        })
    }

    /// A copy, in time and memory of the number of pairs.
    pub fn copy(&self, alloc: Global) -> Result<Term, AllocError>
        ensures { IfOk result (λ term. term ≡ self.now) }
    {
        Ok(Term {
            pairs: self.pairs.copy(alloc)?,
            constant: self.constant,
        })
    }
}

impl Duplicate for Term {
    fn duplicate(&self, alloc: Global) -> Result<Term, AllocError> {
        self.copy(alloc)
    }
}

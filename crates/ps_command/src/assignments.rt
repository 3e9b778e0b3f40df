//! Terms that variables are worth after a command.
ghost use Rattle.std.specs.Prelude.{◌≡◌, ◌≢◌, [], AllPairs, IfOk, OnOk, OnErr, IsErrOf, IsTrue};
ghost use Rattle.ps_command.specs.Assignments.{ascends};
ghost use Rattle.ps_command.specs.Form.{with_term};
ghost use Rattle.ps_term.specs.Exact.{substituted};
ghost use Rattle.ps_term.specs.Substitution.{SubstitutionFits};
ghost use Rattle.ps_term.specs.declared.term.Term.{Term};
ghost use Rattle.ps_term.specs.declared.var.Var.{Var};

use crate::look_up::set_term;
use crate::put::put_in;
use ps_list::copies;
use ps_term::{Term, TermEnd, Var};
use std::alloc::{AllocError, Global};
use std::marker::Model;

/// A list of pairs of a variable and a term, the variables strictly ascending; so no variable stands twice.
#[derive(Debug, Drop)]
pub struct Assignments {
    list: Vec<(Var, Term)>,
}

impl Model for Assignments {
    ghost use Rattle.std.specs.Prelude.{List, IsTrue};
    ghost use Rattle.ps_term.specs.declared.var.Var.{Var};
    ghost use Rattle.ps_term.specs.declared.term.Term.{Term};
    ghost use Rattle.ps_command.specs.Assignments.{ascends};

    ghost Value = { List (Var × Term) };

    ghost view = { λ a. a.list.items };

    ghost invariant = { λ a. IsTrue (ascends a.list.items) };
}

impl Assignments {
    /// No pairs; the call needs no memory.
    pub fn new(alloc: Global) -> Assignments
        ensures { result ≡ [] }
    {
        Assignments {
            list: Vec::new(alloc),
        }
    }

    /// Takes the list as it is; the call needs no memory.
    pub fn from_list(list: Vec<(Var, Term)>) -> Assignments
        requires { IsTrue (ascends list.items) }
        ensures { result ≡ list.items }
    {
        Assignments { list }
    }

    /// Gives the list back; the call needs no memory.
    pub fn into_list(self) -> Vec<(Var, Term)>
        ensures list { result.items ≡ self }
        ensures ascending { IsTrue (ascends result.items) }
        ensures distinct { AllPairs (λ (p q : Var × Term). p.0 ≢ q.0) result.items }
    {
        self.list
    }

    /// The pairs in the order of the variables.
    pub fn as_slice(&self) -> &[(Var, Term)]
        ensures list { result.now ≡ self.now }
        ensures ascending { IsTrue (ascends result.now) }
        ensures distinct { AllPairs (λ (p q : Var × Term). p.0 ≢ q.0) result.now }
    {
        self.list.as_slice()
    }

    /// Makes the variable worth the term, in place of what it was worth; without memory all stays as it was. The variable
    /// is found by a binary search; where it is new, the pairs after it are moved.
    pub fn set(&mut self, _alloc: Global, variable: Var, term: Term) -> Result<(), AllocError>
        ensures set { OnOk result (self.new ≡ with_term variable term self.old) }
        ensures kept { OnErr result (self.new ≡ self.old) }
    {
        set_term(&mut self.list, variable, term)
    }

    /// The term with the terms of the list put for the variables that it names: what `substitute` of ps_term gives, and
    /// `Past128` exactly where that is. Each variable is found by a binary search.
    pub fn put_in(&self, alloc: Global, term: &Term) -> Result<Term, TermEnd>
        ensures term { IfOk result (λ put. put ≡ substituted self.now term.now) }
        ensures fits { OnOk result (SubstitutionFits self.now term.now) }
        ensures past { IsErrOf result TermEnd.Past128 → ¬ SubstitutionFits self.now term.now }
    {
        put_in(alloc, self.list.as_slice(), term)
    }

    /// A copy, in time and memory of its terms.
    pub fn copy(&self, alloc: Global) -> Result<Assignments, AllocError>
        ensures { IfOk result (λ pairs. pairs ≡ self.now) }
    {
        Ok(Assignments {
            list: copies(alloc, self.list.as_slice())?,
        })
    }
}

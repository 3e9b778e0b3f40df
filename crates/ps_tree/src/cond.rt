//! Conditions and tests.
ghost use Rattle.std.specs.Prelude.{◌≡◌, IfOk};

use crate::relation::Relation;
use sqlite_items::{Boxed, Items};
use std::alloc::{AllocError, Global};

/// A condition. An empty `And` holds and an empty `Or` doesn't.
#[derive(Debug, Drop)]
pub enum Cond {
    Rel(Relation),
    Not(Boxed<Cond>),
    And(Items<Cond>),
    Or(Items<Cond>),
}

/// What `if` and `while` go by.
#[derive(Debug, Drop)]
pub enum Test {
    /// Either way.
    Star,
    Cond(Cond),
}

impl Cond {
    /// A copy, in time and memory of its relations.
    #[cycle(cond_copy)]
    pub fn copy(&self, alloc: Global) -> Result<Cond, AllocError>
        ensures { IfOk result (λ cond. cond ≡ self.now) }
    {
        match self {
            Cond::Rel(relation) => Ok(Cond::Rel(relation.copy(alloc)?)),
            Cond::Not(negated) => Ok(Cond::Not(Boxed::new(alloc, negated.get().copy(alloc)?)?)),
            Cond::And(members) => Ok(Cond::And(copy_conds(alloc, members.as_slice())?)),
            Cond::Or(members) => Ok(Cond::Or(copy_conds(alloc, members.as_slice())?)),
        }
    }
}

#[cycle(cond_copy)]
fn copy_conds(alloc: Global, members: &[Cond]) -> Result<Items<Cond>, AllocError>
    ensures { IfOk result (λ copies. copies ≡ members.now) }
{
    let mut copies = Items::new(alloc);
    for member in members {
        copies.push(member.copy(alloc)?)?;
    }
    Ok(copies)
}

impl Test {
    /// A copy, in time and memory of its relations.
    pub fn copy(&self, alloc: Global) -> Result<Test, AllocError>
        ensures { IfOk result (λ test. test ≡ self.now) }
    {
        match self {
            Test::Star => Ok(Test::Star),
            Test::Cond(cond) => Ok(Test::Cond(cond.copy(alloc)?)),
        }
    }
}

//! Declarations of globals.
ghost use Rattle.std.specs.Prelude.{◌≡◌, IfOk};

use crate::name::Name;
use std::alloc::{AllocError, Global};

/// A global variable with the value that it starts with, where one is declared.
#[derive(Debug, Drop)]
pub struct GlobalDecl {
    pub name: Name,
    pub value: Option<i128>,
}

impl GlobalDecl {
    /// A copy, in time and memory of the name's length.
    pub fn copy(&self, alloc: Global) -> Result<GlobalDecl, AllocError>
        ensures { IfOk result (λ declaration. declaration ≡ self.now) }
    {
        Ok(GlobalDecl {
            name: self.name.copy(alloc)?,
            value: self.value,
        })
    }
}

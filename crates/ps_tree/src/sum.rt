//! Sums.
ghost use Rattle.std.specs.Prelude.{◌≡◌, IfOk};

use ps_term::Var;
use sqlite_items::Items;
use std::alloc::{AllocError, Global};

/// A sum of products as the text has it: a number alone, or a number times a variable. A variable may
/// stand in several.
#[derive(Debug, Drop)]
pub struct Sum {
    pub terms: Items<(i128, Option<Var>)>,
}

impl Sum {
    /// A copy, in time and memory of the number of products.
    pub fn copy(&self, alloc: Global) -> Result<Sum, AllocError>
        ensures { IfOk result (λ sum. sum ≡ self.now) }
    {
        Ok(Sum {
            terms: Items::from_slice(alloc, self.terms.as_slice())?,
        })
    }
}

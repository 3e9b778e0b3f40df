// The variables of rows.
ghost use Rattle.std.specs.Prelude.{◌≡◌, ◌↔◌, ◌<◌, ◌^◌, IfOk, IsTrue, OnOk, length};
ghost use Rattle.ps_elim.specs.Stages.{variables, with_variables};
ghost use Rattle.ps_elim.specs.declared.limits.TheConstants.{TOO_MANY_PAIRS};
ghost use Rattle.std.specs.List.{sum_by};

use crate::limits::TOO_MANY_PAIRS;
use ps_term::{Row, Var};
use std::alloc::{AllocError, Global};
use std::collections::BTreeSet;

// The variables that stand in the rows, ascending.
pub(crate) fn variables(alloc: Global, rows: &[Row]) -> Result<Vec<Var>, AllocError>
    ensures { IfOk result (λ list. list.items ≡ variables rows.now) }
{
    let mut found = BTreeSet::new(alloc);
    for at in (0..rows.len()).rev() {
        add_variables(rows[at].term.pairs.as_slice(), &mut found)?;
    }
    listed(alloc, found)
}

/// Whether the rows have fewer than 2^32 pairs in all, and so fewer than 2^32 variables; in time of the
/// number of rows, without memory.
pub fn has_few_variables(rows: &[Row]) -> bool
    ensures pairs { IsTrue result ↔ (sum_by (λ r. length r.term.pairs) rows.now < TOO_MANY_PAIRS) }
    ensures variables { IsTrue result → length (variables rows.now) < 2 ^ 32 }
{
    let mut count = 0;
    for row in rows {
        count += row.term.pairs.as_slice().len();
        if count >= TOO_MANY_PAIRS {
            return false;
        }
    }
    true
}

fn add_variables(pairs: &[(Var, i128)], found: &mut BTreeSet<Var>) -> Result<(), AllocError>
    ensures { OnOk result (found.new.keys ≡ with_variables pairs.now found.old.keys) }
{
    for at in (0..pairs.len()).rev() {
        found.insert(pairs[at].0)?;
    }
    Ok(())
}

// The members of a set in its order.
fn listed(alloc: Global, found: BTreeSet<Var>) -> Result<Vec<Var>, AllocError>
    ensures { IfOk result (λ list. list.items ≡ found.keys) }
{
    let mut list = Vec::with_capacity(alloc, found.len())?;
    for variable in found {
        list.push(variable)?;
    }
    Ok(list)
}

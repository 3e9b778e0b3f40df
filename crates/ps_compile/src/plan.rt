// What has been laid out so far.
ghost use Rattle.std.specs.Prelude.{◌≡◌, ◌≤◌, ◌++◌, drop, length, IfOk, OnOk, replicate, Some};
ghost use Rattle.ps_compile.specs.Layout.{opened_of, block_start};

use crate::draft::Draft;
use ps_tree::Stmt;
use std::alloc::AllocError;

// The body of each location, and the edges. The next new location is the number of owners.
#[derive(Drop)]
pub(crate) struct Plan {
    pub(crate) owners: Vec<Option<u32>>,
    pub(crate) drafts: Vec<Draft>,
}

// Where a block begins that ends at a location: there if it is empty, else at a new one.
pub(crate) fn start(block: &[Stmt], end: usize, plan: &mut Plan) -> Result<usize, AllocError>
    ensures at { IfOk result (λ n. n ≡ block_start block.now end (length plan.old.owners.items)) }
    ensures owners { OnOk result
        (plan.new.owners.items ≡ plan.old.owners.items
        ++ replicate (opened_of block.now) (Some 0)) }
    ensures drafts { OnOk result (plan.new.drafts.items ≡ plan.old.drafts.items) }
{
    if block.is_empty() {
        return Ok(end);
    }
    let new = plan.owners.len();
    plan.owners.push(Some(0)).map_err(|_| AllocError)?;
    Ok(new)
}

// What stands from a number on.
pub(crate) fn tail(block: &[Stmt], at: usize) -> &[Stmt]
    requires { at ≤ length block.now }
    ensures { result.now ≡ drop at block.now }
{
    &block[at..]
}

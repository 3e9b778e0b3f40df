// What a thread has in a row, and the order of threads by it.
ghost use Rattle.std.specs.Prelude.{◌≡◌, All, IfOk, map};
ghost use Rattle.ps_atom.specs.inner.Shares.{AreShares, IsShare};
ghost use Rattle.ps_atom.specs.Threads.{local_pairs, own_pair};

use ps_term::Var;
use std::alloc::{AllocError, Global};

// The number and the coefficient of each local of the thread. Shares are ordered by these, and like ones
// by thread number.
#[derive(Debug, Drop, PartialEq, Eq, PartialOrd, Ord)]
pub(crate) struct Share {
    pub(crate) pairs: Vec<(u32, i128)>,
    pub(crate) thread: u32,
}

// The shares of the threads in their order.
pub(crate) fn shares_in_order(
    alloc: Global,
    pairs: &[(Var, i128)],
    threads: &[u32],
) -> Result<Vec<Share>, AllocError>
    ensures { IfOk result (λ shares. AreShares pairs.now threads.now shares.items) }
{
    let mut shares = shares_of(alloc, pairs, threads)?;
    shares.sort()?;
    Ok(shares)
}

fn shares_of(
    alloc: Global,
    pairs: &[(Var, i128)],
    threads: &[u32],
) -> Result<Vec<Share>, AllocError>
    ensures each { IfOk result (λ shares. All (IsShare pairs.now) shares.items) }
    ensures threads { IfOk result
        (λ shares. map (λ (share : Share). share.thread) shares.items ≡ threads.now) }
{
    let mut shares = Vec::with_capacity(alloc, threads.len())?;
    for thread in threads {
        let pairs = local_pairs(alloc, pairs, *thread)?;
        shares.push(Share {
            pairs,
            thread: *thread,
        })?;
    }
    Ok(shares)
}

fn local_pairs(
    alloc: Global,
    pairs: &[(Var, i128)],
    thread: u32,
) -> Result<Vec<(u32, i128)>, AllocError>
    ensures { IfOk result (λ own. own.items ≡ local_pairs thread pairs.now) }
{
    let mut own = Vec::new(alloc);
    for pair in pairs {
        if let Some(found) = own_pair(thread, pair.1, pair.0) {
            own.push(found)?;
        }
    }
    Ok(own)
}

fn own_pair(thread: u32, coefficient: i128, variable: Var) -> Option<(u32, i128)>
    ensures { result ≡ own_pair thread coefficient variable }
{
    match variable {
        Var::Local(t, n) if t == thread => Some((n, coefficient)),
        _ => None,
    }
}

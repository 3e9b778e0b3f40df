// The pairs of a row with slots put for its threads.
ghost use Rattle.std.specs.Prelude.{◌≡◌, ◌++◌, ◌<◌, ◌^◌, IfOk, OnOk, filter, length, map};
ghost use Rattle.ps_atom.specs.inner.Slots.{in_slot, in_slots, is_global, is_havoc, put_in_slots};

use crate::share::Share;
use ps_term::Var;
use std::alloc::{AllocError, Global};

// The globals, the pairs of each share as locals of its slot, and the havocs.
pub(crate) fn placed(
    alloc: Global,
    pairs: &[(Var, i128)],
    shares: &[Share],
) -> Result<Vec<(Var, i128)>, AllocError>
    requires { length shares.now < 2 ^ 32 }
    ensures { IfOk result
        (λ list. list.items ≡ put_in_slots
        (map (λ share. share.pairs.items) shares.now) pairs.now) }
{
    let mut list = Vec::with_capacity(alloc, pairs.len())?;
    push_globals(&mut list, pairs)?;
    push_shares(&mut list, shares)?;
    push_havocs(&mut list, pairs)?;
    Ok(list)
}

fn push_globals(list: &mut Vec<(Var, i128)>, pairs: &[(Var, i128)]) -> Result<(), AllocError>
    ensures { OnOk result
        (list.new.items ≡ list.old.items ++ filter (λ pair. is_global pair.0) pairs.now) }
{
    for pair in pairs {
        if is_global(pair.0) {
            list.push(*pair)?;
        }
    }
    Ok(())
}

fn push_shares(list: &mut Vec<(Var, i128)>, shares: &[Share]) -> Result<(), AllocError>
    requires { length shares.now < 2 ^ 32 }
    ensures { OnOk result
        (list.new.items ≡ list.old.items ++ in_slots 0
        (map (λ share. share.pairs.items) shares.now)) }
{
    let mut slot = 0;
    for share in shares {
        push_share(list, slot, share.pairs.as_slice())?;
        slot += 1;
    }
    Ok(())
}

fn push_share(list: &mut Vec<(Var, i128)>, slot: u32, own: &[(u32, i128)]) -> Result<(), AllocError>
    ensures { OnOk result (list.new.items ≡ list.old.items ++ in_slot slot own.now) }
{
    for pair in own {
        list.push((Var::Local(slot, pair.0), pair.1))?;
    }
    Ok(())
}

fn push_havocs(list: &mut Vec<(Var, i128)>, pairs: &[(Var, i128)]) -> Result<(), AllocError>
    ensures { OnOk result
        (list.new.items ≡ list.old.items ++ filter (λ pair. is_havoc pair.0) pairs.now) }
{
    for pair in pairs {
        if is_havoc(pair.0) {
            list.push(*pair)?;
        }
    }
    Ok(())
}

fn is_global(variable: Var) -> bool
    ensures { result ≡ is_global variable }
{
    match variable {
        Var::Global(_) => true,
        _ => false,
    }
}

fn is_havoc(variable: Var) -> bool
    ensures { result ≡ is_havoc variable }
{
    match variable {
        Var::Havoc(_) => true,
        _ => false,
    }
}

// Look-ups in lists of pairs of a variable and a term whose variables ascend.
ghost use Rattle.std.specs.Prelude.{◌≡◌, ◌≤◌, true, false, drop, length, IsTrue, OnErr, OnOk};
ghost use Rattle.std.specs.List.Sorted.{IsPartitionPoint};
ghost use Rattle.ps_command.specs.Assignments.{ascends};
ghost use Rattle.ps_command.specs.Form.{with_term};
ghost use Rattle.ps_term.specs.inner.Front.{is_first};
ghost use Rattle.ps_term.specs.Var.{var_lt};

use ps_term::{Term, Var, is_before, is_same};
use std::alloc::AllocError;

// How many pairs come before the variable, which are the first ones; by a binary search.
pub(crate) fn place_of(after: &[(Var, Term)], variable: Var) -> usize
    requires { IsTrue (ascends after.now) }
    ensures within { result ≤ length after.now }
    ensures parts { IsPartitionPoint (λ p. var_lt p.0 variable ≡ true)
        (λ p. var_lt p.0 variable ≡ false) after.now result }
{
    after.partition_point(
        |pair: &(Var, Term)| -> bool
            ensures { result ≡ var_lt pair.now.0 variable }
        { is_before(pair.0, variable) },
    )
}

// Whether the pair at the place, if there is one, is the variable's.
fn stands_at(after: &[(Var, Term)], place: usize, variable: Var) -> bool
    ensures { result ≡ is_first variable (drop place after.now) }
{
    match after.get(place) {
        Some(pair) => is_same(variable, pair.0),
        None => false,
    }
}

// Makes the variable worth the term.
pub(crate) fn set_term(
    after: &mut Vec<(Var, Term)>,
    variable: Var,
    term: Term,
) -> Result<(), AllocError>
    requires { IsTrue (ascends after.old.items) }
    ensures set { OnOk result (after.new.items ≡ with_term variable term after.old.items) }
    ensures kept { OnErr result (after.new.items ≡ after.old.items) }
    ensures ascending { IsTrue (ascends after.new.items) }
{
    let place = place_of(after.as_slice(), variable);
    if stands_at(after.as_slice(), place, variable) {
        after[place] = (variable, term);
        return Ok(());
    }
    after
        .insert(place, (variable, term))
        .map_err(|_| AllocError)?;
    Ok(())
}

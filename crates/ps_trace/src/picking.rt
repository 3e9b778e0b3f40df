// Choices that fit picks.
ghost use Rattle.std.specs.Prelude.{◌≡◌, IfOk, IsErrOf, Some, None, if◌then◌else◌};
ghost use Rattle.ps_graph.specs.Picks.{choice_of, havocs_of};
ghost use Rattle.ps_trace.specs.inner.Picking.{with_choice};

use ps_command::RunEnd;
use ps_graph::Pick;
use std::alloc::AllocError;

// Whether the choices fit the picks exactly; the values of the havocs are put into the list.
pub(crate) fn read_havocs(
    picks: &[Pick],
    choices: &[i128],
    havocs: &mut Vec<i128>,
) -> Result<bool, RunEnd>
    ensures fit { IfOk result (λ fit. havocs_of picks.now choices.now
        ≡ (if fit then Some havocs.new.items else None)) }
    ensures memory { ¬ IsErrOf result RunEnd.Past128 }
{
    havocs.clear();
    if picks.len() != choices.len() {
        return Ok(false);
    }
    for i in 0..picks.len() {
        if !take_choice(picks[i], choices[i], havocs)? {
            return Ok(false);
        }
    }
    Ok(true)
}

// Whether the choice fits the pick; a havoc's value is appended to the list.
fn take_choice(pick: Pick, choice: i128, havocs: &mut Vec<i128>) -> Result<bool, RunEnd>
    ensures fit { IfOk result (λ fit. with_choice havocs.old.items pick choice
        ≡ (if fit then Some havocs.new.items else None)) }
    ensures memory { ¬ IsErrOf result RunEnd.Past128 }
{
    match pick {
        Pick::Star(holds) => Ok(choice == choice_of(holds)),
        Pick::Value => {
            havocs.push(choice).map_err(|_| RunEnd::Memory(AllocError))?;
            Ok(true)
        }
    }
}

// The choice of a `*`.
pub(crate) fn choice_of(holds: bool) -> i128
    ensures { result ≡ choice_of holds }
{
    if holds { 1 } else { 0 }
}

//! Whether a state is initial.
ghost use Rattle.std.specs.Prelude.{◌≡◌, ◌↔◌, ◌<◌, IfSome, IsSome, IsTrue, SomeIff, length};
ghost use Rattle.std.specs.List.{list_all};
ghost use Rattle.ps_command.specs.Fitting.{IsSized};
ghost use Rattle.ps_command.specs.Initial.{IsInitial};
ghost use Rattle.ps_command.specs.Named.{is_declared_row};
ghost use Rattle.ps_command.specs.RunFits.{EachFits, StartFits, TestsFit};
ghost use Rattle.ps_command.specs.Run.{holds};
ghost use Rattle.ps_command.specs.Values.{value_at, values_of};
ghost use Rattle.ps_command.specs.inner.Starts.{all_start};

use crate::evaluation::all_hold;
use crate::fitting::is_sized;
use crate::setting::Setting;
use crate::state::State;
use ps_list::Sequence;
use ps_term::Row;

/// Whether the state is initial, or `None` where a value lies outside `i128` before the answer is known. First it is tested
/// that there is a thread and that the numbers of values are those of the setting, then the rows that hold once, and then
/// thread by thread those that hold for each; a term is evaluated by its pairs in order, each product added to the sum so
/// far, and then its constant. It takes no memory, and time of the rows' pairs for each thread.
pub fn is_initial_state(setting: &Setting, state: &State) -> Option<bool>
    ensures answer { IfSome result (λ yes. IsTrue yes ↔ IsInitial setting.now state.now) }
    ensures fits { IsSome result ↔ StartFits setting.now state.now }
{
    if state.locals.as_slice().is_empty() {
        return Some(false);
    }
    if !is_sized(setting, state) {
        return Some(false);
    }
    let once = once_holds(setting, state)?;
    if !once {
        return Some(false);
    }
    each_holds(setting, state)
}

// Whether the rows hold that hold once.
fn once_holds(setting: &Setting, state: &State) -> Option<bool>
    requires threads { 0 < length state.now.locals }
    requires sized { IsSized setting.now state.now }
    ensures { SomeIff result
        (TestsFit (value_at (values_of 0 state.now)) setting.now.init_once)
        (list_all (holds (value_at (values_of 0 state.now))) setting.now.init_once) }
{
    let first = &state.locals.as_slice()[0];
    all_hold(
        state.globals.as_slice(),
        first.as_slice(),
        setting.init_once.as_slice(),
    )
}

// Whether the rows hold that hold for each thread.
fn each_holds(setting: &Setting, state: &State) -> Option<bool>
    requires { IsSized setting.now state.now }
    ensures { SomeIff result
        (EachFits setting.now.init_each state.now.globals state.now.locals)
        (all_start setting.now.init_each state.now.globals state.now.locals) }
{
    let rows = setting.init_each.as_slice();
    let globals = state.globals.as_slice();
    let all = state.locals.as_slice();
    for locals in all {
        match all_hold(globals, locals.as_slice(), rows) {
            Some(held) => {
                if !held {
                    return Some(false);
                }
            }
            None => return None,
        }
    }
    Some(true)
}

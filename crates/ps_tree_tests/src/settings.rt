//! Copies of states and settings.
use ps_command::{Setting, State};
use ps_list::Sequence;
use std::alloc::{AllocError, Global};
use std::test::Fail;

fn state(alloc: Global) -> Result<State, AllocError> {
    let first = Sequence::from_slice(alloc, &[5])?;
    let second = Sequence::from_slice(alloc, &[-6])?;
    Ok(State {
        globals: Sequence::from_slice(alloc, &[1, 2])?,
        locals: Sequence::from_list(vec![in alloc; first, second]?),
    })
}

fn are_alike(alloc: Global, given: &State, copied: &State) -> Result<bool, AllocError> {
    let want = format!(in alloc; "{given:?}")?;
    let got = format!(in alloc; "{copied:?}")?;
    Ok(got.as_str() == want.as_str())
}

#[test]
fn copies_states(rt: HostRuntime) -> Result<(), Fail> {
    let given = state(rt.alloc())?;
    let copied = given.copy(rt.alloc())?;
    assert!(rt; copied.globals.as_slice() == [1, 2].as_slice());
    assert!(rt; are_alike(rt.alloc(), &given, &copied)?);
    Ok(())
}

fn setting(alloc: Global) -> Setting {
    Setting {
        globals: 1,
        locals: 2,
        init_once: Sequence::from_list(Vec::new(alloc)),
        init_each: Sequence::from_list(Vec::new(alloc)),
        commands: Sequence::from_list(Vec::new(alloc)),
        symbols: Sequence::from_list(Vec::new(alloc)),
    }
}

fn copies_a_setting(alloc: Global) -> Result<bool, AllocError> {
    let copied = setting(alloc).copy(alloc)?;
    Ok(copied.globals == 1 && copied.locals == 2)
}

#[test]
fn copies_settings(rt: HostRuntime) -> Result<(), Fail> {
    assert!(rt; copies_a_setting(rt.alloc())?);
    Ok(())
}

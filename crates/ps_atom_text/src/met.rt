//! Threads, each noted once.
ghost use Rattle.std.specs.Prelude.{◌≡◌, OnOk};
ghost use Rattle.ps_atom_text.specs.inner.Met.{met_with, met_with_all};

use std::alloc::AllocError;

/// Notes a thread, where it wasn't met yet.
pub(crate) fn meet(met: &mut Vec<u32>, thread: u32) -> Result<(), AllocError>
    ensures { OnOk result (met.new.items ≡ met_with met.old.items thread) }
{
    if met.contains(&thread) {
        return Ok(());
    }
    Ok(met.push(thread)?)
}

/// Notes each of the threads.
pub(crate) fn meet_all(met: &mut Vec<u32>, threads: &[u32]) -> Result<(), AllocError>
    ensures { OnOk result (met.new.items ≡ met_with_all met.old.items threads.now) }
{
    for thread in threads {
        meet(met, *thread)?;
    }
    Ok(())
}

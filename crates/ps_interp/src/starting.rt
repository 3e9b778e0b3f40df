// The initial entry of a refuted trace is found.
ghost use Rattle.std.specs.Prelude.{IfErr, OnOk};
ghost use Rattle.ps_interp.specs.inner.Meetings.{interpolant_of};
ghost use Rattle.ps_interp.specs.inner.Starts.{EndsStarting, HaveWeights, IsStarted};

use crate::initial::initial_entry;
use crate::interp_end::InterpEnd;
use crate::meeting::Found;
use crate::standing::Standing;
use crate::start::StartWeights;
use ps_command::Setting;
use ps_triple::entry_holds;
use std::alloc::Global;

// Lists the initial entry of what stands at the first cut, which holds where it has no value past 128 bits.
pub(crate) fn push_initial(
    alloc: Global,
    setting: &Setting,
    start: &StartWeights<'_>,
    standing: &Standing,
    found: &mut Found,
) -> Result<(), InterpEnd>
    requires { HaveWeights setting.now.init_each start.now.threads.items }
    ensures started { OnOk result (IsStarted setting.now start.now (interpolant_of standing.now)
        found.old found.new) }
    ensures ends { IfErr result (EndsStarting setting.now start.now (interpolant_of standing.now)
        found.old.table) }
{
    let entry = match initial_entry(alloc, setting, start, standing) {
        Ok(Some(entry)) => entry,
        Ok(None) => return Err(InterpEnd::Past128),
        Err(end) => return Err(InterpEnd::Memory(end)),
    };
    let stands = match entry_holds(alloc, setting, &found.table, &entry) {
        Ok(stands) => stands,
        Err(end) => return Err(InterpEnd::Memory(end)),
    };
    if !stands {
        return Err(InterpEnd::Past128);
    }
    match found.entries.push_once(entry) {
        Ok(()) => Ok(()),
        Err(end) => Err(InterpEnd::Memory(end)),
    }
}

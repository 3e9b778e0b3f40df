// The multipliers of the rows at the start.
ghost use Rattle.std.specs.Prelude.{◌≡◌, ◌≤◌, IfOk, length};
ghost use Rattle.ps_interp.specs.inner.Starts.{AreStartWeights};
ghost use Rattle.ps_trace.specs.Rows.{rows_at_start};

use ps_command::Setting;
use std::alloc::{AllocError, Global};

// A thread of the trace, with the multipliers of its rows at the start.
#[derive(Drop)]
pub(crate) struct ThreadWeights<'a> {
    pub(crate) thread: u32,
    pub(crate) weights: &'a [u128],
}

// The multipliers of a trace's rows: of those that hold once, of each thread's, and of the letters'.
#[derive(Drop)]
pub(crate) struct StartWeights<'a> {
    pub(crate) once: &'a [u128],
    pub(crate) threads: Vec<ThreadWeights<'a>>,
    pub(crate) letters: &'a [u128],
}

// The multipliers of the rows of a trace with these threads.
pub(crate) fn start_weights<'a>(
    alloc: Global,
    setting: &Setting,
    threads: &[u32],
    lambda: &'a [u128],
) -> Result<StartWeights<'a>, AllocError>
    requires { length (rows_at_start setting.now threads.now) ≤ length lambda.now }
    ensures { IfOk result (AreStartWeights setting.now threads.now lambda.now) }
{
    let each = setting.init_each.as_slice().len();
    let first = setting.init_once.as_slice().len();
    let mut list = Vec::with_capacity(alloc, threads.len())?;
    let mut at = first;
    for thread in threads {
        let end = at + each;
        list.push(ThreadWeights {
            thread: *thread,
            weights: &lambda[at..end],
        })?;
        at = end;
    }
    Ok(StartWeights {
        once: &lambda[..first],
        threads: list,
        letters: &lambda[at..],
    })
}

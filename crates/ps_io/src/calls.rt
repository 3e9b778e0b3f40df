//! Which calls of a source or a sink over memory fail.
ghost use Rattle.std.specs.Prelude.{◌↔◌, IsTrue};
ghost use Rattle.ps_io.specs.SourceState.{IsListedCall};

/// Whether the call after this many is listed, counted from 1. At the last value of the counter no call is.
pub fn is_listed(failing: &[u64], calls: u64) -> bool
    ensures { IsTrue result ↔ IsListedCall failing.now calls }
{
    match calls.checked_add(1) {
        Some(call) => failing.contains(&call),
        None => false,
    }
}

//! Where bytes go to, piece by piece.
ghost use Rattle.std.specs.Prelude.{ℕ, ◌<◌, ◌≤◌, List, length, Option, IfOk};
ghost use Rattle.std.specs.Io.{WritesAtMost};
ghost use Rattle.std.specs.Io.KnownBytes.{WriteAppends};
ghost use Rattle.ps_io.specs.Causes.{HasCause};

use crate::Fault;

/// A place for bytes, which takes them in order.
pub trait Sink {
    // The bytes written, where the sink tells them.
    ghost written: { Self → Option (List ℕ) };

    // How many calls have failed.
    ghost faults: { Self → ℕ };

    /// Appends the first bytes of `piece`, at least one, and says how many. A device that takes nothing is a fault.
    /// After `Fault` nothing is appended.
    fn put(&mut self, piece: &[u8]) -> Result<usize, Fault>
        requires { 0 < length piece.now }
        ensures bound { WritesAtMost result piece.now }
        ensures some { IfOk result (λ n. 0 < n) }
        ensures bytes { WriteAppends (written self.old) (written self.new) result piece.now }
        ensures cause { HasCause (faults self.old) (faults self.new) result };
}

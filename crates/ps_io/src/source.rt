//! Where bytes come from, piece by piece.
ghost use Rattle.std.specs.Prelude.{ℕ, ◌<◌, ◌↔◌, Bool, List, length, Option, IsTrue, IsErr};
ghost use Rattle.std.specs.Io.{ReadsAtMost};
ghost use Rattle.std.specs.Io.KnownBytes.{ReadConsumes};
ghost use Rattle.ps_io.specs.Causes.{HasCause};

use crate::Fault;

/// Bytes that are read once, from front to back.
pub trait Source {
    // The bytes left, where the source tells them.
    ghost left: { Self → Option (List ℕ) };

    // How many calls have failed.
    ghost faults: { Self → ℕ };

    // Whether the last call failed.
    ghost failed: { Self → Bool };

    /// Puts the next bytes into the front of `into`, and says how many: 0 only at the end of the input.
    /// After `Fault` the bytes left are as before.
    fn take(&mut self, into: &mut [u8]) -> Result<usize, Fault>
        requires { 0 < length into.old }
        ensures bound { ReadsAtMost result into.new }
        ensures bytes { ReadConsumes (left self.old) (left self.new) result into.new }
        ensures cause { HasCause (faults self.old) (faults self.new) result }
        ensures last { IsTrue (failed self.new) ↔ IsErr result };
}

//! What a mode does of its own: from the bytes of an input to its answer.
ghost use Rattle.std.specs.Prelude.{ℕ, List, IfOk};
ghost use Rattle.ps_modes.specs.Owes.{IsOwedAnswer, IsShort, IsVerdict};
ghost use Rattle.ps_modes.specs.declared.status.Status.{Status};

use crate::answer::Answer;
use std::alloc::{AllocError, Global};

/// Answers the inputs of a mode that aren't too long. What it owes to them is all that is known of it where it runs.
pub(crate) trait Judge {
    // The statuses and texts that it owes to an input.
    ghost owed: { Self → List ℕ → Status → List ℕ → Type 0 };

    /// The one answer that it owes to this input.
    fn judge(&self, alloc: Global, input: &[u8]) -> Result<Answer, AllocError>
        requires { IsShort input.now }
        ensures answer { IfOk result
            (λ answer. IsOwedAnswer (owed self.now input.now) answer.status answer.text.items) }
        ensures verdict { IfOk result (λ answer. IsVerdict answer.status) };
}

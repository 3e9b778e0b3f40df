//! Proofs as texts: read, copied and printed.
ghost use Rattle.std.specs.Prelude.{◌≤◌};

use ps_case::form_refusal;
use ps_file::{print_proof, read_proof};
use std::alloc::{AllocError, Global};

// Longer texts are no cases.
const MOST_BYTES: usize = 2_000_000;

/// `same` where the proof is printed as it stands, or else what is printed of it; or the first fault. Lines count from
/// `first`.
pub fn reprinted(alloc: Global, text: &[u8], first: u32) -> Result<Vec<u8>, AllocError>
    requires from_one { 1 ≤ first }
    requires small { first ≤ 1000 }
{
    if text.len() > MOST_BYTES {
        return Err(AllocError);
    }
    match read_proof(alloc, text, first) {
        Ok(proof) => {
            let printed = print_proof(alloc, &proof.copy(alloc)?)?;
            if printed.as_slice() == text {
                return b"same".to_vec(alloc);
            }
            Ok(printed)
        }
        Err(end) => form_refusal(alloc, end),
    }
}

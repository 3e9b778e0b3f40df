//! Reads a source to its end, up to a limit.
ghost use Rattle.std.specs.Prelude.{◌≡◌, ℕ, ◌≤◌, length, IfOk, IfSome, IsTrue, OnOk, IsErrOf, vec_len};
ghost use Rattle.std.specs.Io.KnownBytes.{IsAtEnd};
ghost use Rattle.ps_io.specs.Bytes.{GaveAtMost, GaveMore};
ghost use Rattle.ps_io.specs.Causes.{Rose};

use crate::Source;
use std::alloc::{AllocError, Global};
use thiserror::Error;

/// How many bytes one call of a source is asked for.
const PIECE: usize = 65_536;

/// Why a source was not read to its end.
#[derive(Debug, Drop, Error)]
pub enum ReadEnd {
    #[error("the source failed")]
    Failed,
    #[error("the input is too long")]
    Long,
    #[error("out of memory")]
    Memory(AllocError),
}

/// All bytes of the source, of which it takes at most `most`. The first fault ends the reading.
///
/// One pass: each byte is copied once out of a buffer, into a list that grows by doubling. After an error the source
/// has been read in part.
pub fn read_all<S: Source>(alloc: Global, source: &mut S, most: usize) -> Result<Vec<u8>, ReadEnd>
    ensures whole { IfOk result (λ bytes. IfSome (S.left source.old) (λ left. bytes.items ≡ left)) }
    ensures ended { OnOk result (IsAtEnd (S.left source.new)) }
    ensures within { IfOk result (λ bytes. vec_len bytes ≤ most) }

    // It is too long exactly where more than `most` bytes came before the end or a fault.
    ensures long { IsErrOf result ReadEnd.Long
        → GaveMore most (S.left source.old) (S.left source.new) }
    ensures failed_within { IsErrOf result ReadEnd.Failed
        → GaveAtMost most (S.left source.old) (S.left source.new) }

    ensures failed { IsErrOf result ReadEnd.Failed
        → Rose (S.faults source.old) (S.faults source.new) }
    ensures failed_last { IsErrOf result ReadEnd.Failed → IsTrue (S.failed source.new) }
    ensures stayed { ¬ IsErrOf result ReadEnd.Failed → S.faults source.new ≡ S.faults source.old }
    ensures later { S.faults source.old ≤ S.faults source.new }
{
    let mut buffer = zeros(alloc, PIECE).map_err(ReadEnd::Memory)?;
    let piece = buffer.as_mut_slice();
    let mut bytes = Vec::new(alloc);
    'reading: loop {
        match source.take(piece) {
            Err(_) => return Err(ReadEnd::Failed),
            Ok(0) => return Ok(bytes),
            Ok(count) => {
                if count > most - bytes.len() {
                    return Err(ReadEnd::Long);
                }
                bytes
                    .extend_from_slice(&piece[..count])
                    .map_err(ReadEnd::Memory)?;
            }
        }
    }
}

/// So many bytes that are 0.
fn zeros(alloc: Global, count: usize) -> Result<Vec<u8>, AllocError>
    ensures { IfOk result (λ bytes. length bytes.items ≡ count) }
{
    vec![in alloc; 0u8; count]
}

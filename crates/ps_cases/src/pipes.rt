//! Sources that are read to their end and sinks that are written to, in pieces and with a call that fails.
use ps_case::{number_and_rest, word};
use ps_io::{MemorySink, MemorySource, ReadEnd, read_all, write_all};
use ps_text::put_word;
use std::alloc::{AllocError, Global};

/// What comes of a source: the input is the bytes of a call, the limit, the call that fails (0 for none), and the bytes.
pub fn read_whole(alloc: Global, input: &[u8]) -> Result<Vec<u8>, AllocError> {
    let (piece, rest) = number_and_rest(input)?;
    let (most, rest) = number_and_rest(rest)?;
    let (fails, bytes) = number_and_rest(rest)?;
    let failing = [u64::from(fails)].to_vec(alloc)?;
    let mut source = MemorySource::new(bytes.to_vec(alloc)?, (piece as usize).max(1), failing);
    match read_all(alloc, &mut source, most as usize) {
        Ok(read) => Ok(read),
        Err(ReadEnd::Long) => word(alloc, "too long"),
        Err(ReadEnd::Failed) => word(alloc, "failed"),
        Err(ReadEnd::Memory(end)) => Err(end),
    }
}

/// Whether all was written and what: the input is the room, the bytes of a call, the call that fails (0 for none), and the
/// bytes.
pub fn write_whole(alloc: Global, input: &[u8]) -> Result<Vec<u8>, AllocError> {
    let (room, rest) = number_and_rest(input)?;
    let (piece, rest) = number_and_rest(rest)?;
    let (fails, bytes) = number_and_rest(rest)?;
    let failing = [u64::from(fails)].to_vec(alloc)?;
    let mut sink = MemorySink::new(alloc, room as usize, (piece as usize).max(1), failing)?;
    let is_written = write_all(&mut sink, bytes).is_ok();
    let mut out = word(alloc, if is_written { "all:" } else { "failed:" })?;
    put_word(&mut out, sink.written())?;
    Ok(out)
}

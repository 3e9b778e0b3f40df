//! Writes a whole text into a sink.
ghost use Rattle.std.specs.Prelude.{◌≡◌, ℕ, OnOk, OnErr};
ghost use Rattle.std.specs.Io.KnownBytes.{Appends};
ghost use Rattle.ps_io.specs.Bytes.{TookPrefix};
ghost use Rattle.ps_io.specs.Causes.{HasCause};

use crate::{Fault, Sink};

/// Appends all bytes. The first fault ends the writing, when some first bytes and not all were appended.
pub fn write_all<K: Sink>(sink: &mut K, bytes: &[u8]) -> Result<(), Fault>
    ensures all { OnOk result (Appends (K.written sink.old) (K.written sink.new) bytes.now) }
    ensures prefix { OnErr result (TookPrefix (K.written sink.old) (K.written sink.new) bytes.now) }
    ensures cause { HasCause (K.faults sink.old) (K.faults sink.new) result }
{
    let mut done = 0;
    'writing: while done < bytes.len() {
        done += sink.put(&bytes[done..])?;
    }
    Ok(())
}

//! The adapter of a writer of the host, such as standard output: the trusted edge.
ghost use Rattle.std.specs.Prelude.{◌≡◌};

use crate::{Fault, Sink};
use std::io::Write;

/// A writer of the host as a sink. It counts the writes that failed or took nothing, up to the last value of a `u64`.
#[derive(Drop)]
pub struct HostSink<W> {
    writer: W,
    faults: u64,
}

impl<W: Write> HostSink<W> {
    pub fn new(writer: W) -> HostSink<W>
        ensures written { ⟦<HostSink<W> as Sink>⟧.written result ≡ W.contents writer }
        ensures fresh { ⟦<HostSink<W> as Sink>⟧.faults result ≡ 0 }
    {
        HostSink { writer, faults: 0 }
    }
}

impl<W: Write> Sink for HostSink<W> {
    ghost written = { λ s. W.contents s.writer };

    ghost faults = { λ s. s.faults };

    fn put(&mut self, piece: &[u8]) -> Result<usize, Fault> {
        match self.writer.write(piece) {
            Ok(count) if count > 0 => Ok(count),
            _ => {
                self.faults = self.faults.saturating_add(1);
                Err(Fault)
            }
        }
    }
}

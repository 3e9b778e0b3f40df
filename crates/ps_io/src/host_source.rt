//! The adapter of a reader of the host, such as standard input: the trusted edge.
ghost use Rattle.std.specs.Prelude.{◌≡◌, false};

use crate::{Fault, Source};
use std::io::Read;

/// A reader of the host as a source. It counts the reads that failed, up to the last value of a `u64`, and keeps
/// whether the last one did.
#[derive(Drop)]
pub struct HostSource<R> {
    reader: R,
    faults: u64,
    failed: bool,
}

impl<R: Read> HostSource<R> {
    pub fn new(reader: R) -> HostSource<R>
        ensures left { ⟦<HostSource<R> as Source>⟧.left result ≡ R.remaining reader }
        ensures fresh { ⟦<HostSource<R> as Source>⟧.faults result ≡ 0 }
        ensures calm { ⟦<HostSource<R> as Source>⟧.failed result ≡ false }
    {
        HostSource {
            reader,
            faults: 0,
            failed: false,
        }
    }
}

impl<R: Read> Source for HostSource<R> {
    ghost left = { λ s. R.remaining s.reader };

    ghost faults = { λ s. s.faults };

    ghost failed = { λ s. s.failed };

    fn take(&mut self, into: &mut [u8]) -> Result<usize, Fault> {
        match self.reader.read(into) {
            Ok(count) => {
                self.failed = false;
                Ok(count)
            }
            Err(_) => {
                self.failed = true;
                self.faults = self.faults.saturating_add(1);
                Err(Fault)
            }
        }
    }
}

//! A source over bytes in memory, in pieces, which fails at chosen calls.
ghost use Rattle.std.specs.Prelude.{◌≡◌, ℕ, ◌+◌, ◌-◌, ◌^◌, ◌<◌, ◌≤◌, ◌↔◌, false, min, length, Some, IsTrue, IsErr, IfOk};
ghost use Rattle.std.specs.Io.{ReadsAtMost};
ghost use Rattle.std.specs.Io.KnownBytes.{ReadConsumes};
ghost use Rattle.ps_io.specs.Causes.{HasCause};
ghost use Rattle.ps_io.specs.SourceState.{IsListedCall};

use crate::calls::is_listed;
use crate::{Fault, Source};
use std::marker::Model;

/// Gives its bytes in pieces, and fails at the calls that it was told, for tests of what stands above.
#[derive(Debug, Drop)]
pub struct MemorySource {
    bytes: Vec<u8>,
    given: usize,
    piece: usize,
    failing: Vec<u64>,
    calls: u64,
    faults: u64,
    failed: bool,
}

impl Model for MemorySource {
    ghost use Rattle.std.specs.Prelude.{ℕ, ◌<◌, ◌≤◌, length, drop};
    ghost use Rattle.ps_io.specs.SourceState.{SourceState};

    ghost Value = { SourceState };

    ghost view = { λ s. record {
      left = drop s.given s.bytes.items;
      piece = s.piece;
      failing = s.failing.items;
      calls = s.calls;
      faults = s.faults;
      failed = s.failed;
    } };

    ghost invariant = { λ s. (s.given ≤ length s.bytes.items) × (0 < s.piece) × (s.faults ≤ s.calls) };
}

impl MemorySource {
    /// A source of these bytes that gives at most `piece` of them in a call and fails at the calls listed in
    /// `failing`, counted from 1. A call costs a walk over `failing`.
    pub fn new(bytes: Vec<u8>, piece: usize, failing: Vec<u64>) -> MemorySource
        requires { 0 < piece }
        ensures left { result.left ≡ bytes.items }
        ensures piece { result.piece ≡ piece }
        ensures failing { result.failing ≡ failing.items }
        ensures fresh { (result.calls ≡ 0) × (result.faults ≡ 0) × (result.failed ≡ false) }
    {
        MemorySource {
            bytes,
            given: 0,
            piece,
            failing,
            calls: 0,
            faults: 0,
            failed: false,
        }
    }

    /// The bytes that no call has given yet.
    pub fn left(&self) -> &[u8]
        ensures { result.now ≡ self.now.left }
    {
        &self.bytes[self.given..]
    }
}

impl Source for MemorySource {
    ghost left = { λ s. Some s.left };

    ghost faults = { λ s. s.faults };

    ghost failed = { λ s. s.failed };

    fn take(&mut self, into: &mut [u8]) -> Result<usize, Fault>
        ensures bound { ReadsAtMost result into.new }
        ensures bytes { ReadConsumes (Some self.old.left) (Some self.new.left) result into.new }
        ensures cause { HasCause self.old.faults self.new.faults result }
        ensures last { IsTrue self.new.failed ↔ IsErr result }

        ensures fails { IsErr result ↔ IsListedCall self.old.failing self.old.calls }
        ensures gives { IfOk result
            (λ n. n ≡ min (min (length self.old.left) self.old.piece) (length into.old)) }
        ensures counts { self.new.calls ≡ min (self.old.calls + 1) (2 ^ 64 - 1) }
        ensures same_piece { self.new.piece ≡ self.old.piece }
        ensures same_failing { self.new.failing ≡ self.old.failing }
    {
        let fails = is_listed(self.failing.as_slice(), self.calls);
        self.calls = self.calls.saturating_add(1);
        self.failed = fails;
        if fails {
            self.faults += 1;
            return Err(Fault);
        }
        let left = &self.bytes[self.given..];
        let count = left.len().min(self.piece).min(into.len());
        into[..count].copy_from_slice(&left[..count]);
        self.given += count;
        Ok(count)
    }
}

//! The most bytes that an input may have, and one more.
ghost use Rattle.std.specs.Prelude.{None, false};

use ps_io::{Fault, MemorySink, OpenGate, Source};
use ps_modes::run;
use std::alloc::{AllocError, Global};
use std::string::String;
use std::sync::Wait;
use std::test::Fail;
use std::thread::Threads;

/// So many bytes that are 0, without holding them.
#[derive(Drop)]
struct Zeros {
    left: usize,
}

impl Source for Zeros {
    ghost left = { λ _. None };

    ghost faults = { λ _. 0 };

    ghost failed = { λ _. false };

    fn take(&mut self, into: &mut [u8]) -> Result<usize, Fault> {
        let count = self.left.min(into.len());
        into[..count].fill(0);
        self.left -= count;
        Ok(count)
    }
}

fn words(alloc: Global) -> Result<Vec<String>, AllocError> {
    let mut words = Vec::new(alloc);
    words.push(String::from_str(alloc, "proofspace")?)?;
    words.push(String::from_str(alloc, "refute")?)?;
    Ok(words)
}

// Whether so many zeros are refused with this text.
fn is_refused<R: Threads + Wait + Sync>(
    rt: &R,
    alloc: Global,
    left: usize,
    text: &str,
) -> Result<bool, AllocError> {
    let words = words(alloc)?;
    let mut source = Zeros { left };
    let mut sink = MemorySink::new(alloc, 100, 100, Vec::new(alloc))?;
    let status = run(
        rt,
        alloc,
        words.as_slice(),
        &mut source,
        &mut sink,
        &OpenGate,
    );
    Ok(status == 3 && sink.written() == text.as_bytes())
}

#[test]
fn an_input_of_a_byte_more_than_the_limit_is_too_long(rt: HostRuntime) -> Result<(), Fail> {
    let alloc = rt.alloc();
    assert!(rt; is_refused(&rt, alloc, 300_000_001, "input: too long\n")?);
    assert!(rt; is_refused(&rt, alloc, 300_000_000, "input: line 1 field 0: cut\n")?);
    Ok(())
}

//! The adapters of the host.
use ps_io::{Fault, Gate, HostSink, HostSource, OpenGate, Point, Sink, read_all};
use std::alloc::{AllocError, Global};
use std::test::Fail;

fn reads(alloc: Global) -> Result<bool, AllocError> {
    let mut source = HostSource::new(b"abc".as_slice());
    let read = read_all(alloc, &mut source, 9).ok().ok_or(AllocError)?;
    Ok(read.as_slice() == b"abc".as_slice())
}

fn writes() -> bool {
    let mut into = [0u8; 2];
    let mut sink = HostSink::new(into.as_mut_slice());
    sink.put(b"xyz") == Ok(2) && sink.put(b"z") == Err(Fault)
}

#[test]
fn the_adapters_of_the_host_pass_bytes_on(rt: HostRuntime) -> Result<(), Fail> {
    assert!(rt; reads(rt.alloc())?);
    assert!(rt; writes());
    OpenGate.pass(0, Point::Claimed);
    Ok(())
}

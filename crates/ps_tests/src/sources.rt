//! A source over memory.
use ps_io::{Fault, MemorySource, Source};
use std::alloc::{AllocError, Global};
use std::test::Fail;

// Gives `abcde`, two bytes a call, and fails at the second one.
fn source(alloc: Global) -> Result<MemorySource, AllocError> {
    let bytes = b"abcde".as_slice().to_vec(alloc)?;
    let failing = [2u64].as_slice().to_vec(alloc)?;
    Ok(MemorySource::new(bytes, 2, failing))
}

fn gives_two(source: &mut MemorySource) -> bool {
    let mut into = [0u8; 3];
    source.take(&mut into) == Ok(2) && into == *b"ab\0"
}

fn fails(source: &mut MemorySource) -> bool {
    let mut into = [0u8; 3];
    source.take(&mut into) == Err(Fault) && source.left() == b"cde".as_slice()
}

fn gives(source: &mut MemorySource, count: usize) -> bool {
    let mut into = [0u8; 3];
    source.take(&mut into) == Ok(count)
}

#[test]
fn a_source_over_memory_gives_pieces_and_fails_where_it_is_told(
    rt: HostRuntime,
) -> Result<(), Fail> {
    let mut source = source(rt.alloc())?;
    assert!(rt; gives_two(&mut source));
    assert!(rt; fails(&mut source));
    assert!(rt; gives(&mut source, 2));
    assert!(rt; gives(&mut source, 1));
    assert!(rt; gives(&mut source, 0));
    Ok(())
}

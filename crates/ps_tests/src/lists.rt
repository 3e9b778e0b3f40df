//! Copies of lists.
use ps_list::Sequence;
use std::alloc::{AllocError, Global};
use std::test::Fail;

fn is_seven_and_nine(list: &Sequence<u32>) -> bool {
    list.as_slice() == [7u32, 9].as_slice()
}

fn copies_lists_of_lists(alloc: Global) -> Result<bool, AllocError> {
    let inner = Sequence::from_slice(alloc, &[7u32, 9])?;
    let lists = Sequence::from_list(vec![in alloc; inner]?);
    let copied = lists.copy(alloc)?;
    let is_same = copied.as_slice().iter().all(|list| is_seven_and_nine(list));
    Ok(is_same && copied.into_list().len() == 1)
}

fn copies_signed_numbers(alloc: Global) -> Result<bool, AllocError> {
    let numbers: Sequence<i128> = Sequence::from_slice(alloc, &[-1])?;
    let copied = numbers.copy(alloc)?;
    Ok(copied.as_slice() == [-1i128].as_slice())
}

fn copies_multipliers(alloc: Global) -> Result<bool, AllocError> {
    let multipliers: Sequence<u128> = Sequence::from_slice(alloc, &[1, 2])?;
    let copied = multipliers.copy(alloc)?;
    Ok(copied.as_slice() == [1u128, 2].as_slice())
}

#[test]
fn copies_lists(rt: HostRuntime) -> Result<(), Fail> {
    assert!(rt; copies_lists_of_lists(rt.alloc())?);
    assert!(rt; copies_signed_numbers(rt.alloc())?);
    assert!(rt; copies_multipliers(rt.alloc())?);
    Ok(())
}

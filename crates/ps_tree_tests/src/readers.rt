//! A small form, printed and read.
use ps_text::{
    Integer, Natural, Natural32, Reader, Until, list, put_digits, put_end, put_field, put_header,
    put_integer, put_natural, put_only, put_signed_digits, put_word, times, while_lines,
};
use std::alloc::{AllocError, Global};
use std::test::Fail;

fn put_line(out: &mut Vec<u8>) -> Result<(), AllocError> {
    put_header(out, b"numbers", 2)?;
    put_word(out, b"of")?;
    put_natural(out, 3)?;
    put_natural(out, 3)?;
    put_integer(out, -4)?;
    put_field(out, b"x")?;
    put_end(out)
}

fn put_last(out: &mut Vec<u8>) -> Result<(), AllocError> {
    put_digits(out, 5)?;
    put_signed_digits(out, -6)?;
    put_only(out, b"end")
}

fn prints(alloc: Global) -> Result<bool, AllocError> {
    let mut out = Vec::new(alloc);
    put_line(&mut out)?;
    put_last(&mut out)?;
    Ok(out.as_slice() == b"numbers 2\nof 3 3 -4 x\n5-6end\n".as_slice())
}

#[test]
fn prints_a_form(rt: HostRuntime) -> Result<(), Fail> {
    assert!(rt; prints(rt.alloc())?);
    Ok(())
}

fn begins(reader: &mut Reader<'_>) -> bool {
    reader.header(b"numbers", 2) == Ok(2) && reader.line(b"of") == Ok(())
}

fn goes_on_with_threes(alloc: Global, reader: &mut Reader<'_>) -> Result<bool, AllocError> {
    let threes = while_lines::<Natural32>(alloc, b"3", 2, reader)
        .ok()
        .ok_or(AllocError)?;
    Ok(threes.as_slice() == [3, 3].as_slice())
}

fn goes_on_up_to_a_word(alloc: Global, reader: &mut Reader<'_>) -> Result<bool, AllocError> {
    let last = list::<Integer>(alloc, &Until::Word(b"x"), reader)
        .ok()
        .ok_or(AllocError)?;
    Ok(last.as_slice() == [-4].as_slice())
}

fn comes_to_the_next_line(reader: &mut Reader<'_>) -> bool {
    reader.word(b"x") == Ok(()) && reader.end() == Ok(()) && reader.line(b"of") == Ok(())
}

fn goes_on_with_two(alloc: Global, reader: &mut Reader<'_>) -> Result<bool, AllocError> {
    let numbers = times::<Natural>(alloc, 2, reader).ok().ok_or(AllocError)?;
    Ok(numbers.as_slice() == [8, 9].as_slice())
}

fn ends(reader: &mut Reader<'_>) -> bool {
    reader.end() == Ok(()) && reader.only(b"end") == Ok(()) && reader.done() == Ok(())
}

#[test]
fn reads_a_form(rt: HostRuntime) -> Result<(), Fail> {
    let mut reader = Reader::new(b"numbers 2\nof 3 3 -4 x\nof 8 9\nend\n", 1);
    assert!(rt; begins(&mut reader));
    assert!(rt; goes_on_with_threes(rt.alloc(), &mut reader)?);
    assert!(rt; goes_on_up_to_a_word(rt.alloc(), &mut reader)?);
    assert!(rt; comes_to_the_next_line(&mut reader));
    assert!(rt; goes_on_with_two(rt.alloc(), &mut reader)?);
    assert!(rt; ends(&mut reader));
    Ok(())
}

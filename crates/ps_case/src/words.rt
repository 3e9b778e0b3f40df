//! Parts of inputs, and answers in words and numbers.
use ps_text::{cut, put_digits, put_field, read_u32};
use std::alloc::{AllocError, Global};

/// The number that the input begins with, and what follows the blank after it.
pub fn number_and_rest(input: &[u8]) -> Result<(u32, &[u8]), AllocError> {
    let (number, rest) = cut(input, b' ').ok_or(AllocError)?;
    let number = read_u32(number).ok_or(AllocError)?;
    Ok((number, rest))
}

/// What stands before the first mark and after it.
pub fn two_parts<'a>(input: &'a str, mark: char) -> Result<(&'a str, &'a str), AllocError> {
    input.split_once(mark).ok_or(AllocError)
}

/// The number that the text is.
pub fn read_number(text: &str) -> Result<u32, AllocError> {
    read_u32(text.as_bytes()).ok_or(AllocError)
}

/// The input as a text.
pub fn text_of_bytes(input: &[u8]) -> Result<&str, AllocError> {
    str::from_utf8(input).ok().ok_or(AllocError)
}

/// The bytes of a word.
pub fn word(alloc: Global, text: &str) -> Result<Vec<u8>, AllocError> {
    text.as_bytes().to_vec(alloc)
}

/// Appends a blank and the number.
pub fn put_number(out: &mut Vec<u8>, number: u32) -> Result<(), AllocError> {
    put_field(out, b"")?;
    put_digits(out, u128::from(number))
}

/// `true` or `false`.
pub fn truth(alloc: Global, holds: bool) -> Result<Vec<u8>, AllocError> {
    word(alloc, if holds { "true" } else { "false" })
}

/// `same` where both texts are, or else `other`.
pub fn sameness(alloc: Global, one: &str, other: &str) -> Result<Vec<u8>, AllocError> {
    word(alloc, if one == other { "same" } else { "other" })
}

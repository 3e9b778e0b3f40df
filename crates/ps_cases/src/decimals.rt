//! Decimals: each kind reads a field, and answers the number anew, or `none`.
use ps_case::word;
use ps_text::{put_digits, put_signed_digits, read_i128, read_u32, read_u128};
use std::alloc::{AllocError, Global};

/// The field as a decimal of 128 bits.
pub fn natural(alloc: Global, field: &[u8]) -> Result<Vec<u8>, AllocError> {
    shown(alloc, read_u128(field))
}

/// The field as a decimal of 32 bits.
pub fn natural32(alloc: Global, field: &[u8]) -> Result<Vec<u8>, AllocError> {
    match read_u32(field) {
        Some(number) => shown(alloc, Some(u128::from(number))),
        None => shown(alloc, None),
    }
}

/// The field as a signed decimal of 128 bits.
pub fn integer(alloc: Global, field: &[u8]) -> Result<Vec<u8>, AllocError> {
    let Some(number) = read_i128(field) else {
        return word(alloc, "none");
    };
    let mut out = Vec::new(alloc);
    put_signed_digits(&mut out, number)?;
    Ok(out)
}

fn shown(alloc: Global, number: Option<u128>) -> Result<Vec<u8>, AllocError> {
    let Some(number) = number else {
        return word(alloc, "none");
    };
    let mut out = Vec::new(alloc);
    put_digits(&mut out, number)?;
    Ok(out)
}

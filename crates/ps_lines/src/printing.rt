//! Pieces of texts, put at the end of what was written before. A text is printed line by line.

ghost use Rattle.std.specs.Prelude.{◌≡◌, [], ◌∷◌, ◌++◌, OnOk, decimal};
ghost use Rattle.std.specs.Fmt.{signed_decimal};
ghost use Rattle.ps_lines.specs.Tokens.{after_blank, line_bytes};

use itoa::Buffer;
use std::alloc::AllocError;

/// Puts a word, or a part of a field.
pub fn put_word(out: &mut Vec<u8>, word: &[u8]) -> Result<(), AllocError>
    ensures { OnOk result (out.new.items ≡ out.old.items ++ word.now) }
{
    out.extend_from_slice(word)
}

/// Puts a natural number as a part of a field.
pub fn put_digits(out: &mut Vec<u8>, n: u128) -> Result<(), AllocError>
    ensures { OnOk result (out.new.items ≡ out.old.items ++ decimal n) }
{
    let mut buffer = Buffer::new();
    out.extend_from_slice(buffer.format(n).as_bytes())
}

/// Puts a signed number as a part of a field.
pub fn put_signed_digits(out: &mut Vec<u8>, n: i128) -> Result<(), AllocError>
    ensures { OnOk result (out.new.items ≡ out.old.items ++ signed_decimal n) }
{
    let mut buffer = Buffer::new();
    out.extend_from_slice(buffer.format(n).as_bytes())
}

/// Puts a further field of a line, after a blank.
pub fn put_field(out: &mut Vec<u8>, field: &[u8]) -> Result<(), AllocError>
    ensures { OnOk result (out.new.items ≡ out.old.items ++ after_blank field.now) }
{
    out.push(b' ')?;
    out.extend_from_slice(field)
}

/// Puts a natural number as a further field.
pub fn put_natural(out: &mut Vec<u8>, n: u128) -> Result<(), AllocError>
    ensures { OnOk result (out.new.items ≡ out.old.items ++ after_blank (decimal n)) }
{
    let mut buffer = Buffer::new();
    put_field(out, buffer.format(n).as_bytes())
}

/// Puts a signed number as a further field.
pub fn put_integer(out: &mut Vec<u8>, n: i128) -> Result<(), AllocError>
    ensures { OnOk result (out.new.items ≡ out.old.items ++ after_blank (signed_decimal n)) }
{
    let mut buffer = Buffer::new();
    put_field(out, buffer.format(n).as_bytes())
}

/// Puts the end of a line.
pub fn put_end(out: &mut Vec<u8>) -> Result<(), AllocError>
    ensures { OnOk result (out.new.items ≡ out.old.items ++ 10 ∷ []) }
{
    out.extend_from_slice(b"\n")
}

/// Puts a line that is a word alone.
pub fn put_only(out: &mut Vec<u8>, word: &[u8]) -> Result<(), AllocError>
    ensures { OnOk result (out.new.items ≡ out.old.items ++ line_bytes (word.now, [])) }
{
    put_word(out, word)?;
    put_end(out)
}

/// Puts a line of a word and a count.
pub fn put_header(out: &mut Vec<u8>, word: &[u8], n: u32) -> Result<(), AllocError>
    ensures { OnOk result (out.new.items ≡ out.old.items ++ line_bytes (word.now, decimal n ∷ [])) }
{
    put_word(out, word)?;
    put_natural(out, u128::from(n))?;
    put_end(out)
}

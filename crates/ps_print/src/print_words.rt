//! Words of a program text, put at the end of what was written before, each with the blank or the
//! line feed after it.

ghost use Rattle.std.specs.Prelude.{◌≡◌, [], ◌∷◌, OnOk, decimal};
ghost use Rattle.ps_print.specs.Printed.{Puts, byte_after};
ghost use Rattle.ps_grammar.specs.Spelling.{NamePiece, NumberPiece, Mark};

use ps_lines::put_digits;
use ps_token::TokenKind;
use std::alloc::AllocError;

// A line feed after `;`, `{` and `}`, else a blank.
fn byte_after(kind: TokenKind) -> u8
    ensures { result ≡ byte_after (Mark kind) }
{
    match kind {
        TokenKind::Semicolon => b'\n',
        TokenKind::OpenBrace => b'\n',
        TokenKind::CloseBrace => b'\n',
        _ => b' ',
    }
}

/// Puts a reserved name or a sign.
pub(crate) fn put_mark(out: &mut Vec<u8>, kind: TokenKind) -> Result<(), AllocError>
    ensures { OnOk result (Puts out.old.items out.new.items (Mark kind ∷ [])) }
{
    out.extend_from_slice(kind.spelling())?;
    out.push(byte_after(kind))?;
    Ok(())
}

/// Puts a name.
pub(crate) fn put_name(out: &mut Vec<u8>, name: &[u8]) -> Result<(), AllocError>
    ensures { OnOk result (Puts out.old.items out.new.items (NamePiece name.now ∷ [])) }
{
    out.extend_from_slice(name)?;
    out.push(b' ')?;
    Ok(())
}

/// Puts a number without its sign.
pub(crate) fn put_number(out: &mut Vec<u8>, number: u128) -> Result<(), AllocError>
    ensures { OnOk result (Puts out.old.items out.new.items (NumberPiece (decimal number) ∷ [])) }
{
    put_digits(out, number)?;
    out.push(b' ')?;
    Ok(())
}

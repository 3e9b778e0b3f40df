//! One token of a text, and the laws on tokens, which do no work.
use ps_text::{Place, Token, TokenKind, end_place, laws, number_value, text_of};
use std::test::Fail;

const TEXT: &[u8] = b"x 007";

fn has_its_bytes() -> bool {
    let token = Token {
        kind: TokenKind::Number,
        start: 2,
        end: 5,
        place: Place { line: 1, column: 3 },
    };
    text_of(b"x 007", token) == b"007".as_slice()
}

fn ends_after_its_last_byte() -> bool {
    end_place(b"x\n 007") == Place { line: 2, column: 5 }
}

fn counts() -> bool {
    number_value(b"007") == 7 && number_value(b"999999999999999999") == 999_999_999_999_999_999
}

fn calls_the_laws() {
    laws::one_list_of_tokens(TEXT);
    laws::one_bad_place(TEXT);
    laws::tokens_or_bad(TEXT);
    laws::each_token_is_of_the_text(TEXT);
    laws::written_words_are_tokens(TEXT);
}

#[test]
fn reads_a_token(rt: HostRuntime) -> Result<(), Fail> {
    assert!(rt; has_its_bytes());
    assert!(rt; ends_after_its_last_byte());
    assert!(rt; counts());
    calls_the_laws();
    Ok(())
}

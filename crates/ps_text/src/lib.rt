//! Texts as bytes: those of lines, and the tokens of program texts.
#![tactic(auto)]

pub use ps_lines::{
    Form, FormEnd, FormFault, FormName, Integer, Leaf, Line, Natural, Natural32, Reader, Span,
    Spans, Until, counts_as_decimal, cut, lines, list, put_digits, put_end, put_field, put_header,
    put_integer, put_natural, put_only, put_signed_digits, put_word, read_i128, read_u32,
    read_u128, take_leaf, times, while_lines,
};
pub use ps_token::{
    Place, Token, TokenEnd, TokenKind, end_place, laws, number_value, text_of, tokens,
};

//! The tokens of program texts, with their places.
#![tactic(auto)]

pub mod laws;
mod number;
mod place;
mod scanning;
mod spelling;
mod token;
mod token_end;
mod token_kind;
mod tokenizing;
pub mod worked;

pub use number::{MOST_DIGITS, number_value};
pub use place::Place;
pub use token::{Token, text_of};
pub use token_end::TokenEnd;
pub use token_kind::TokenKind;
pub use tokenizing::{end_place, tokens};

//! Facts about the tokens of texts that callers cite: each function does no work, and its clause is the fact.

ghost use Rattle.std.specs.Prelude.{◌≡◌, List, All, map};
ghost use Rattle.std.specs.List.{flat_map};
ghost use Rattle.ps_token.specs.declared.place.Place.{Place};
ghost use Rattle.ps_token.specs.declared.token.Token.{Token};
ghost use Rattle.ps_token.specs.Lexing.{AreTokens, IsBadAt, IsTokenOf, Written, IsWritten, word_bytes, word_parts, HasTokens};

/// A text has one list of tokens.
pub fn one_list_of_tokens(bytes: &[u8])
    ensures { (ts us : List Token) → AreTokens bytes.now ts → AreTokens bytes.now us → ts ≡ us }
{
    let _text = bytes;
}

/// A text is bad at one place.
pub fn one_bad_place(bytes: &[u8])
    ensures { (place other : Place) → IsBadAt bytes.now place → IsBadAt bytes.now other
        → place ≡ other }
{
    let _text = bytes;
}

/// A text that has tokens isn't bad anywhere.
pub fn tokens_or_bad(bytes: &[u8])
    ensures { (ts : List Token) (place : Place) → AreTokens bytes.now ts
        → ¬ IsBadAt bytes.now place }
{
    let _text = bytes;
}

/// Each token of a text is spelled there as its kind is, and stands at its place.
pub fn each_token_is_of_the_text(bytes: &[u8])
    ensures { (ts : List Token) → AreTokens bytes.now ts → All (IsTokenOf bytes.now) ts }
{
    let _text = bytes;
}

/// A text of words, each with a blank or a line feed after it, has tokens of just these kinds and bytes.
pub fn written_words_are_tokens(bytes: &[u8])
    ensures { (words : List Written) → All IsWritten words → bytes.now ≡ flat_map word_bytes words
        → HasTokens bytes.now (map word_parts words) }
{
    let _text = bytes;
}

//! A place in a text, from which fields and ends of lines are taken one after the other.

ghost use Rattle.std.specs.Prelude.{◌≡◌, ℕ, ◌+◌, ◌<◌, ◌≤◌, ◌^◌, List, length, drop, option_map, if◌then◌else◌};
ghost use Rattle.ps_lines.specs.Tokens.{has_newline, next_field, line_parts, ahead};
ghost use Rattle.ps_lines.specs.Until.{goes};
ghost use Rattle.ps_lines.specs.inner.Ahead.{field_ahead, field_len};
ghost use Rattle.ps_lines.specs.Reading.{text_start, Reads, fault_at, line_fault, field_at, leaf_at, word_at, line_at, end_at, only_at, done_at, natural32, natural, integer, count, header_at, begins_at, Takes, member_field, members_up_to};

use crate::decimal::{count, integer, natural, natural32};
use crate::form_fault::FormFault;
use crate::form_name::FormName;
use crate::until::Until;
use std::marker::Model;

/// A place in a text. A call takes no memory, and looks at each byte that it passes a few times.
/// After a fault nothing is promised of the place.
#[derive(Debug, Drop)]
pub struct Reader<'a> {
    rest: &'a [u8],
    // Whether the line's last field was taken, with the line feed behind it, and the line's end wasn't.
    ended: bool,
    line: u32,
    field: u32,
}

impl<'a> Model for Reader<'a> {
    ghost use Rattle.std.specs.Prelude.{ℕ, ◌+◌, ◌<◌, ◌≤◌, ◌^◌, length, if◌then◌else◌};
    ghost use Rattle.ps_lines.specs.Tokens.{ahead};
    ghost use Rattle.ps_lines.specs.Reading.{Position};

    ghost Value = { Position };

    ghost view = { λ r. record { line = r.line; field = r.field; tokens = ahead r.ended r.rest.now } };

    ghost invariant = { λ r. (1 ≤ r.line) × (r.line + (if r.ended then 1 else 0) + length r.rest.now < 2 ^ 32) × (r.field + length r.rest.now < 2 ^ 32) };
}

// How many bytes stand before the first blank or line feed.
pub(crate) fn field_len(bytes: &[u8]) -> usize
    ensures value { result ≡ field_len bytes.now }
    ensures within { result ≤ length bytes.now }
{
    for (i, byte) in bytes.iter().enumerate() {
        if *byte == b' ' || *byte == b'\n' {
            return i;
        }
    }
    bytes.len()
}

fn has_line_feed(bytes: &[u8]) -> bool
    ensures { result ≡ has_newline (line_parts bytes.now) }
{
    for byte in bytes {
        if *byte == b'\n' {
            return true;
        }
    }
    false
}

impl<'a> Reader<'a> {
    /// The start of a text whose lines count from `first`.
    pub fn new(bytes: &'a [u8], first: u32) -> Self
        requires from_one { 1 ≤ first }
        requires room { first + length bytes.now < 2 ^ 32 }
        ensures { result ≡ text_start first bytes.now }
    {
        Reader {
            rest: bytes,
            ended: false,
            line: first,
            field: 1,
        }
    }

    /// A fault at the next field.
    pub fn fault(&self, what: FormName) -> FormFault
        ensures { result ≡ fault_at self.now what }
    {
        FormFault {
            line: self.line,
            field: self.field,
            what,
        }
    }

    /// A fault of the line as a whole.
    pub fn line_fault(&self, what: FormName) -> FormFault
        ensures { result ≡ line_fault self.now what }
    {
        FormFault {
            line: self.line,
            field: 0,
            what,
        }
    }

    /// Whether a line ends ahead. Looks no further than to the end of the line.
    pub fn has_line(&self) -> bool
        ensures { result ≡ has_newline self.now.tokens }
    {
        self.ended || has_line_feed(self.rest)
    }

    // The next field of the line, where it has one, and the place after it.
    fn split(&self) -> Option<(&'a [u8], Reader<'a>)>
        ensures { option_map (λ p. (p.0.now, p.1)) result ≡ field_ahead self.now }
    {
        if self.ended || self.rest.is_empty() {
            return None;
        }
        let len = field_len(self.rest);
        let (field, tail) = self.rest.split_at(len);
        if tail.is_empty() {
            return Some((
                field,
                Reader {
                    rest: tail,
                    ended: false,
                    line: self.line,
                    field: self.field + 1,
                },
            ));
        }
        let (_, rest) = tail.split_at(1);
        Some((
            field,
            Reader {
                rest,
                ended: tail[0] == b'\n',
                line: self.line,
                field: self.field + 1,
            },
        ))
    }

    /// The next field of the line, which stays where it is.
    #[tactic(auto, using(crate::proofs::Ahead::next_found, crate::proofs::Ahead::next_lacks))]
    pub fn peek(&self) -> Option<&'a [u8]>
        ensures { option_map (λ f. f.now) result ≡ next_field self.now.tokens }
    {
        match self.split() {
            Some((field, _)) => Some(field),
            None => None,
        }
    }

    /// Takes the next field of the line.
    #[tactic(auto, using(crate::proofs::Ahead::field_found, crate::proofs::Ahead::field_lacks))]
    pub fn field(&mut self) -> Result<&'a [u8], FormFault>
        ensures { Reads (λ f. f.now) result self.new (field_at self.old) }
    {
        match self.split() {
            Some((field, after)) => {
                *self = after;
                Ok(field)
            }
            None => Err(self.fault(FormName::Count)),
        }
    }

    /// Takes the next field of the line, where it has one and a list goes on with it.
    #[tactic(auto, using(crate::proofs::Ahead::member_found, crate::proofs::Ahead::member_lacks, crate::proofs::Ahead::member_stops))]
    pub fn member(&mut self, until: &Until<'_>) -> Option<&'a [u8]>
        ensures { Takes (option_map (λ f. f.now) result) self.old self.new
            (member_field (goes until.now) self.old) }
    {
        match self.split() {
            Some((field, after)) => {
                if !until.passes(field) {
                    return None;
                }
                *self = after;
                Some(field)
            }
            None => None,
        }
    }

    /// With how many of the next fields a list goes on, which stay where they are. Looks at no more than `most` fields.
    #[tactic(auto, using(crate::proofs::Ahead::counted_none, crate::proofs::Ahead::counted_more, crate::proofs::Ahead::counted_stops, crate::proofs::Ahead::counted_all))]
    pub fn members_ahead(&self, until: &Until<'_>, most: usize) -> usize
        ensures { result ≡ members_up_to (goes until.now) most self.now.tokens }
    {
        let mut place = Reader {
            rest: self.rest,
            ended: self.ended,
            line: self.line,
            field: self.field,
        };
        for count in 0..most {
            if place.member(until).is_none() {
                return count;
            }
        }
        most
    }

    /// Takes the end of the line.
    pub fn end(&mut self) -> Result<(), FormFault>
        ensures { Reads (λ x. x) result self.new (end_at self.old) }
    {
        if !self.ended {
            return Err(self.fault(FormName::Count));
        }
        self.ended = false;
        self.line += 1;
        self.field = 1;
        Ok(())
    }

    /// Whether the text ends here: `Word` for the line that follows, ended or not.
    pub fn done(&self) -> Result<(), FormFault>
        ensures { result ≡ done_at self.now }
    {
        if self.ended {
            return Err(self.line_fault(FormName::Word));
        }
        if !self.rest.is_empty() {
            return Err(self.line_fault(FormName::Word));
        }
        Ok(())
    }

    /// Takes the next field, which is this word.
    #[tactic(auto, unfolding(crate::specs::Reading::leaf_at, crate::specs::Steps::and_then))]
    pub fn word(&mut self, word: &[u8]) -> Result<(), FormFault>
        ensures { Reads (λ x. x) result self.new (word_at word.now self.old) }
    {
        let fault = self.fault(FormName::Word);
        let field = self.field()?;
        if field == word { Ok(()) } else { Err(fault) }
    }

    /// Begins a line, whose first field is this word.
    #[tactic(auto, unfolding(crate::specs::Reading::line_at))]
    pub fn line(&mut self, word: &[u8]) -> Result<(), FormFault>
        ensures { Reads (λ x. x) result self.new (line_at word.now self.old) }
    {
        if !self.has_line() {
            return Err(self.line_fault(FormName::Cut));
        }
        self.word(word)
    }

    /// Takes a line that is this word alone.
    #[tactic(auto, unfolding(crate::specs::Reading::only_at, crate::specs::Steps::and_then))]
    pub fn only(&mut self, word: &[u8]) -> Result<(), FormFault>
        ensures { Reads (λ x. x) result self.new (only_at word.now self.old) }
    {
        self.line(word)?;
        self.end()
    }

    /// Takes the next field, a decimal of 32 bits.
    #[tactic(auto, unfolding(crate::specs::Reading::leaf_at, crate::specs::Steps::and_then))]
    pub fn natural32(&mut self) -> Result<u32, FormFault>
        ensures { Reads (λ x. x) result self.new (leaf_at natural32 self.old) }
    {
        let fault = self.fault(FormName::Number);
        let field = self.field()?;
        match natural32(field) {
            Ok(n) => Ok(n),
            Err(what) => Err(fault.named(what)),
        }
    }

    /// Takes the next field, a decimal of 128 bits.
    #[tactic(auto, unfolding(crate::specs::Reading::leaf_at, crate::specs::Steps::and_then))]
    pub fn natural(&mut self) -> Result<u128, FormFault>
        ensures { Reads (λ x. x) result self.new (leaf_at natural self.old) }
    {
        let fault = self.fault(FormName::Number);
        let field = self.field()?;
        match natural(field) {
            Ok(n) => Ok(n),
            Err(what) => Err(fault.named(what)),
        }
    }

    /// Takes the next field, a signed decimal of 128 bits.
    #[tactic(auto, unfolding(crate::specs::Reading::leaf_at, crate::specs::Steps::and_then))]
    pub fn integer(&mut self) -> Result<i128, FormFault>
        ensures { Reads (λ x. x) result self.new (leaf_at integer self.old) }
    {
        let fault = self.fault(FormName::Number);
        let field = self.field()?;
        match integer(field) {
            Ok(n) => Ok(n),
            Err(what) => Err(fault.named(what)),
        }
    }

    /// Takes the next field, a stated count, at most `limit`.
    #[tactic(auto, unfolding(crate::specs::Reading::leaf_at, crate::specs::Steps::and_then))]
    pub fn count(&mut self, limit: u32) -> Result<u32, FormFault>
        ensures { Reads (λ x. x) result self.new (leaf_at (count limit) self.old) }
    {
        let fault = self.fault(FormName::Number);
        let field = self.field()?;
        match count(limit, field) {
            Ok(n) => Ok(n),
            Err(what) => Err(fault.named(what)),
        }
    }

    /// Takes a line of a word and a stated count, at most `limit`.
    #[tactic(auto, unfolding(crate::specs::Reading::header_at, crate::specs::Steps::and_then))]
    pub fn header(&mut self, word: &[u8], limit: u32) -> Result<u32, FormFault>
        ensures { Reads (λ x. x) result self.new (header_at word.now limit self.old) }
    {
        self.line(word)?;
        let n = self.count(limit)?;
        self.end()?;
        Ok(n)
    }

    /// Whether an ended line begins here with this word. Looks no further than to the end of the line.
    pub fn begins(&self, word: &[u8]) -> bool
        ensures { result ≡ begins_at word.now self.now }
    {
        match self.peek() {
            Some(field) => field == word && self.has_line(),
            None => false,
        }
    }
}

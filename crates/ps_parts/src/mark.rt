//! The first mark of an input.
ghost use Rattle.std.specs.Prelude.{◌↔◌, ◌+◌, ◌≤◌, length, IsTrue, IfSome, MatchOption};
ghost use Rattle.ps_parts.specs.Cuts.{HasNoMark, IsFirstMark, IsLineStart, IsMarkAt};

/// The line between two parts.
pub const MARK: &str = "%%\n";

/// The place of the first mark. One pass over the bytes before it.
#[tactic(auto, using(crate::proofs::Marks::mark_inside))]
pub(crate) fn first_mark(input: &[u8]) -> Option<usize>
    ensures inside { IfSome result (λ place. place + 3 ≤ length input.now) }
    ensures first { MatchOption result (HasNoMark input.now)
        (λ place. IsFirstMark input.now place) }
{
    for place in 0..input.len() {
        if is_mark(input, place) {
            return Some(place);
        }
    }
    None
}

/// Whether a mark stands at the place.
fn is_mark(input: &[u8], place: usize) -> bool
    requires { place ≤ length input.now }
    ensures { IsTrue result ↔ IsMarkAt input.now place }
{
    is_line_start(input, place) && input[place..].starts_with(MARK.as_bytes())
}

/// Whether a line begins at the place.
fn is_line_start(input: &[u8], place: usize) -> bool
    requires { place ≤ length input.now }
    ensures { IsTrue result ↔ IsLineStart input.now place }
{
    place == 0 || input[place - 1] == b'\n'
}

//! Which signs a relation may have.

ghost use Rattle.std.specs.Prelude.{◌≡◌};
ghost use Rattle.ps_parse.specs.Inner.Signed.{signs_of};
ghost use Rattle.ps_parse.specs.Inner.Sums.{sign_of};

use ps_token::TokenKind;
use ps_tree::Sign;

/// Which signs a relation may have.
#[derive(Clone, Copy)]
pub(crate) enum Signs {
    /// Each of the six.
    All,
    /// Each but `!=`: the relation holds at the start.
    AtStart,
}

fn sign_of(kind: TokenKind) -> Option<Sign>
    ensures { result ≡ sign_of kind }
{
    match kind {
        TokenKind::Less => Some(Sign::Less),
        TokenKind::LessEq => Some(Sign::LessEq),
        TokenKind::Greater => Some(Sign::Greater),
        TokenKind::GreaterEq => Some(Sign::GreaterEq),
        TokenKind::EqualEqual => Some(Sign::Equal),
        TokenKind::NotEqual => Some(Sign::NotEqual),
        _ => None,
    }
}

impl Signs {
    /// The sign that a kind of word stands for.
    pub(crate) fn sign_of(self, kind: TokenKind) -> Option<Sign>
        ensures { result ≡ signs_of self kind }
    {
        match (self, sign_of(kind)) {
            (Signs::AtStart, Some(Sign::NotEqual)) => None,
            (_, sign) => sign,
        }
    }
}

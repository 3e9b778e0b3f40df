//! The levels that are open, the one that was opened last at the end.

ghost use Rattle.std.specs.Prelude.{◌≡◌, OnOk, [], ◌∷◌, reverse};
ghost use Rattle.ps_parse.specs.Causes.{block_level, closed, levels_with, without_negations};
ghost use Rattle.ps_parse.specs.Inner.Passed.{has_atomic, is_negated};

use crate::level::Level;
use ps_token::TokenKind;
use std::alloc::AllocError;

// Whether the level that was opened last is a `!`.
fn is_negated(levels: &[Level]) -> bool
    ensures { result ≡ is_negated (reverse levels.now) }
{
    match levels.last() {
        Some(Level::Negation) => true,
        _ => false,
    }
}

// After an operand, which ends each `!` before it.
fn end_negations(levels: &mut Vec<Level>)
    ensures { reverse levels.new.items ≡ without_negations (reverse levels.old.items) }
{
    'ending: while is_negated(levels) {
        levels.pop();
    }
}

// Without the level that was opened last.
fn close(levels: &mut Vec<Level>)
    ensures { reverse levels.new.items ≡ closed (reverse levels.old.items) }
{
    levels.pop();
}

// With a level more.
fn open(levels: &mut Vec<Level>, level: Level) -> Result<(), AllocError>
    ensures { OnOk result (reverse levels.new.items ≡ level ∷ reverse levels.old.items) }
{
    levels.push(level)?;
    Ok(())
}

fn block_level(atomic: bool) -> Level
    ensures { result ≡ block_level atomic }
{
    if atomic {
        Level::AtomicBlock
    } else {
        Level::Block
    }
}

/// Passes a word of the kind, which may stand after `atomic`.
pub(crate) fn pass_levels(
    levels: &mut Vec<Level>,
    atomic: bool,
    kind: TokenKind,
) -> Result<(), AllocError>
    ensures { OnOk result
        (reverse levels.new.items ≡ levels_with atomic kind (reverse levels.old.items)) }
{
    match kind {
        TokenKind::OpenBrace => open(levels, block_level(atomic)),
        TokenKind::OpenParen => open(levels, Level::Parens),
        TokenKind::Not => open(levels, Level::Negation),
        TokenKind::CloseBrace => {
            close(levels);
            Ok(())
        }
        TokenKind::CloseParen => {
            end_negations(levels);
            close(levels);
            end_negations(levels);
            Ok(())
        }
        TokenKind::And | TokenKind::Or | TokenKind::Semicolon => {
            end_negations(levels);
            Ok(())
        }
        _ => Ok(()),
    }
}

fn is_atomic_block(level: Level) -> bool
    ensures { result ≡ has_atomic (level ∷ []) }
{
    match level {
        Level::AtomicBlock => true,
        _ => false,
    }
}

/// Whether a block of `atomic` is open.
pub(crate) fn has_atomic(levels: &[Level]) -> bool
    ensures { result ≡ has_atomic (reverse levels.now) }
{
    for level in levels {
        if is_atomic_block(*level) {
            return true;
        }
    }
    false
}

//! The modes of the program and their names.
ghost use Rattle.std.specs.Prelude.{◌≡◌, ◌≢◌, MatchOption};
ghost use Rattle.ps_words.specs.Modes.{mode_name};
ghost use Rattle.ps_words.specs.declared.mode.Mode.{Mode};

/// The word for `refute`.
pub const REFUTE: &str = "refute";

/// The word for `replay`.
pub const REPLAY: &str = "replay";

/// The word for `check`.
pub const CHECK: &str = "check";

/// The word for `member`.
pub const MEMBER: &str = "member";

/// A mode that is built.
#[derive(Clone, Copy)]
pub enum Mode {
    /// Whether multipliers refute rows.
    Refute,
    /// Whether a witness reaches a failure of a program.
    Replay,
    /// Whether a proof is accepted for a program.
    Check,
    /// Whether the entries of a proof prove a trace of a program.
    Member,
}

impl Mode {
    /// The word that names the mode.
    pub fn name(self) -> &'static str
        ensures { result.now ≡ mode_name self }
    {
        match self {
            Mode::Refute => REFUTE,
            Mode::Replay => REPLAY,
            Mode::Check => CHECK,
            Mode::Member => MEMBER,
        }
    }

    /// The mode that has this name. It takes one comparison a mode.
    pub fn named(name: &str) -> Option<Mode>
        ensures { MatchOption result ((mode : Mode) → mode_name mode ≢ name.now)
            (λ mode. mode_name mode ≡ name.now) }
    {
        if name == Mode::Refute.name() {
            return Some(Mode::Refute);
        }
        if name == Mode::Replay.name() {
            return Some(Mode::Replay);
        }
        if name == Mode::Check.name() {
            return Some(Mode::Check);
        }
        if name == Mode::Member.name() {
            return Some(Mode::Member);
        }
        None
    }
}

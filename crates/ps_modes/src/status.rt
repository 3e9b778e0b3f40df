//! The exit statuses of the program.
ghost use Rattle.std.specs.Prelude.{◌≡◌};
ghost use Rattle.ps_modes.specs.Status.{code};

/// What the exit status of the program says.
#[derive(Clone, Copy, Debug, PartialEq, Eq)]
pub enum Status {
    /// Safe, accepted, or yes.
    Holds,
    /// Unsafe, not accepted, or no.
    Fails,
    /// Neither was found.
    Unknown,
    /// The input isn't of the form, passes a limit, or leads past 128 bits.
    BadInput,
    /// The words of the command line.
    BadWords,
    /// The source failed.
    ReadFault,
    /// The sink failed, after it took a prefix of the text.
    WriteFault,
    /// Want of memory.
    NoMemory,
}

impl Status {
    /// The number of the status, from 0 in the order above.
    pub fn code(self) -> u8
        ensures { result ≡ code self }
    {
        self as u8
    }
}

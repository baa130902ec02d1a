ghost use Rattle.std.specs.Prelude.{◌≡◌};
ghost use Rattle.gfxpipe.specs.Ending.{exit_number};

/// How a run ended. Each status has an exit number of the program.
#[derive(Clone, Copy, Debug, PartialEq, Eq)]
pub enum Status {
    /// The command has done all that it was given.
    Done,
    /// The input is refused.
    Refused,
    /// The words are no command.
    Usage,
    /// A read of the input failed.
    ReadFault,
    /// A write to the output or to the messages failed.
    WriteFault,
    /// No memory was left.
    NoMemory,
}

impl Status {
    /// The exit number of the program, 0 to 5.
    pub fn number(self) -> u8
        ensures { result ≡ exit_number self }
    {
        self as u8
    }
}

ghost use Rattle.std.specs.Prelude.{◌≡◌};
ghost use Rattle.gfx_script.specs.Script.{is_turn};

/// Which end of a session moves next. The numbers are at least 1.
#[derive(Clone, Copy, Debug, PartialEq, Eq)]
pub enum Turn {
    /// The server: it sends a frame, if it may.
    Server,
    /// The client: it takes up to so many bytes of those that are on their way to it.
    Client(u32),
    /// The server again: it takes up to so many bytes of the client's answers.
    Answer(u32),
}

impl Turn {
    /// Whether the number of the turn, where it has one, is within its range.
    pub fn is_in_range(self) -> bool
        ensures { result ≡ is_turn self }
    {
        match self {
            Turn::Server => true,
            Turn::Client(most) | Turn::Answer(most) => 1 <= most,
        }
    }
}

//! Which records there are.

use live_records::Limits;

/// The kind of a record that has a channel message.
const MESSAGE: u8 = b'M';

/// The most bytes of a channel message.
const MOST_MESSAGE: u32 = gfx_base::MOST_MESSAGE;

/// The most bytes of any other body.
const MOST_BODY: u32 = 65_536;

/// How long bodies may be.
pub const LIMITS: Limits = Limits {
    long: MESSAGE,
    most_long: MOST_MESSAGE,
    most: MOST_BODY,
};

/// What a record asks for, by its kind.
#[derive(Clone, Copy, Debug, PartialEq, Eq)]
pub enum Command {
    /// These versions are to be offered.
    Offer,
    /// What the client says first.
    Hello,
    /// A channel message of the server is taken.
    Take,
    /// What the frames that have ended since the last such record have written.
    Written,
    /// How a rectangle of the output looks.
    Picture,
}

impl Command {
    /// The command that a record of this kind is, if there is one.
    pub fn of_kind(kind: u8) -> Option<Command> {
        match kind {
            b'V' => Some(Command::Offer),
            b'C' => Some(Command::Hello),
            MESSAGE => Some(Command::Take),
            b'D' => Some(Command::Written),
            b'P' => Some(Command::Picture),
            _ => None,
        }
    }

    /// Whether it says nothing but its kind.
    pub fn is_bare(self) -> bool {
        matches!(self, Command::Hello | Command::Written)
    }
}

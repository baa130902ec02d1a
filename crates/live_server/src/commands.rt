//! Which records there are.

use crate::answers::Answer;
use gfx_script::ScriptKind;
use live_records::{Limits, Record};

/// The kind of a record that has a picture.
const PAINT: u8 = b'p';

/// The most bytes of the body of a paint.
const MOST_PAINT: u32 = 67_108_864 + 32;

/// The most bytes of any other body.
pub const MOST_BODY: u32 = 65_536;

/// How long bodies may be.
pub const LIMITS: Limits = Limits {
    long: PAINT,
    most_long: MOST_PAINT,
    most: MOST_BODY,
};

/// What a record asks for, by its kind.
#[derive(Clone, Copy, Debug, PartialEq, Eq)]
pub enum Command {
    /// The next bytes of the client are taken.
    Take,
    /// The server's end is to be another than the usual one.
    Settle,
    /// A step is pushed.
    Push(Word),
    /// A picture is pushed with its paint.
    Paint,
    /// The server's end has a turn.
    Serve,
    /// Where nothing else is to do, what shows is improved.
    ImproveIdle,
    /// Whether a frame that were pushed now could go at once.
    WantsFrame,
    /// How many of the steps that were pushed weren't sent yet.
    StepsBehind,
}

/// Which step is pushed.
#[derive(Clone, Copy, Debug, PartialEq, Eq)]
pub enum Word {
    Surface,
    Delete,
    Reset,
    Map,
    Fill,
    Copy,
    Keep,
    Show,
    Forget,
    Improve,
    Frame,
}

/// The command that a record is, or what is answered where it is none.
pub fn command_of(record: Record<'_>) -> Result<Command, Answer> {
    let Some(command) = Command::of_kind(record.kind) else {
        return Err(Answer::Unknown);
    };
    if command.is_bare() && !record.body.is_empty() {
        return Err(Answer::Wrong(ScriptKind::Key));
    }
    Ok(command)
}

impl Command {
    /// The command that a record of this kind is, if there is one.
    fn of_kind(kind: u8) -> Option<Command> {
        match kind {
            b'M' => Some(Command::Take),
            b'H' => Some(Command::Settle),
            PAINT => Some(Command::Paint),
            b'S' => Some(Command::Serve),
            b'I' => Some(Command::ImproveIdle),
            b'?' => Some(Command::WantsFrame),
            b'B' => Some(Command::StepsBehind),
            _ => Some(Command::Push(Word::of_kind(kind)?)),
        }
    }

    /// Whether it says nothing but its kind, and is no step.
    fn is_bare(self) -> bool {
        matches!(
            self,
            Command::Serve | Command::ImproveIdle | Command::WantsFrame | Command::StepsBehind
        )
    }
}

impl Word {
    /// The step that a record of this kind is, if there is one.
    fn of_kind(kind: u8) -> Option<Word> {
        match kind {
            b's' => Some(Word::Surface),
            b'd' => Some(Word::Delete),
            b'r' => Some(Word::Reset),
            b'm' => Some(Word::Map),
            b'f' => Some(Word::Fill),
            b'c' => Some(Word::Copy),
            b'k' => Some(Word::Keep),
            b'w' => Some(Word::Show),
            b'g' => Some(Word::Forget),
            b'i' => Some(Word::Improve),
            b'F' => Some(Word::Frame),
            _ => None,
        }
    }
}

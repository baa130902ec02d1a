//! Answers: what is written for each record that was read.

use gfx_base::{Bytes, NoMemory, Sink};
use gfx_client::ClientFault;
use gfx_layout::{Stop, put_bytes, put_items};
use live_records::{Ending, write_record};
use std::alloc::Global;

/// Why a command isn't done.
#[derive(Clone, Copy, Debug, PartialEq, Eq)]
pub enum Wrong {
    /// The body has another length than its command has.
    Key,
    /// A number names nothing, or there are too many.
    Range,
    /// A rectangle doesn't lie in the output.
    RectOutside,
}

impl Wrong {
    /// The name that is told.
    fn name(self) -> &'static str {
        match self {
            Wrong::Key => "Key",
            Wrong::Range => "Range",
            Wrong::RectOutside => "RectOutside",
        }
    }
}

/// Why a body gives nothing.
#[derive(Clone, Copy, Debug, PartialEq, Eq)]
pub enum BodyFault {
    /// It is wrong.
    Wrong(Wrong),
    /// No memory is left.
    Memory,
}

impl From<Stop> for BodyFault {
    fn from(_stop: Stop) -> BodyFault {
        BodyFault::Wrong(Wrong::Key)
    }
}

impl From<NoMemory> for BodyFault {
    fn from(_e: NoMemory) -> BodyFault {
        BodyFault::Memory
    }
}

/// What is answered to a record. What goes with it stands in `Said`.
#[derive(Clone, Copy, Debug)]
pub enum Answer {
    /// It is done.
    Done,
    /// The server's message was taken, or the client's first words are here.
    Taken,
    /// The server's message is refused, or memory ran out; no other is taken any more.
    Refused(ClientFault),
    /// What was written.
    Written,
    /// A picture.
    Picture,
    /// The command is wrong, and nothing was done.
    Wrong(Wrong),
    /// No memory is left for it.
    NoMemory,
    /// It isn't the time for it.
    Untimely,
    /// There is no such record.
    Unknown,
}

impl From<BodyFault> for Answer {
    fn from(fault: BodyFault) -> Answer {
        match fault {
            BodyFault::Wrong(wrong) => Answer::Wrong(wrong),
            BodyFault::Memory => Answer::NoMemory,
        }
    }
}

impl Answer {
    /// The kind of its record.
    fn kind(self) -> u8 {
        match self {
            Answer::Done => b'O',
            Answer::Taken => b'A',
            Answer::Refused(_) => b'R',
            Answer::Written => b'D',
            Answer::Picture => b'P',
            Answer::Wrong(_) => b'W',
            Answer::NoMemory => b'N',
            Answer::Untimely => b'E',
            Answer::Unknown => b'U',
        }
    }
}

/// What is said with an answer. Its room is used again for each.
#[derive(Drop)]
pub struct Said {
    /// The frames that have ended.
    pub frames: Vec<u32>,
    /// What stands at the end of the answer: bytes for the server, or a picture.
    pub out: Bytes,
    /// What stands before it: of what was written, all.
    pub inner: Bytes,
    /// The front of the record, and that.
    front: Bytes,
}

impl Said {
    /// Nothing is said yet.
    pub fn new(alloc: Global) -> Said {
        Said {
            frames: Vec::new(alloc),
            out: Bytes::new(alloc),
            inner: Bytes::new(alloc),
            front: Bytes::new(alloc),
        }
    }

    /// Takes back what was said.
    pub fn clear(&mut self) {
        self.frames.clear();
        self.out.truncate(0);
        self.inner.truncate(0);
    }
}

/// Writes the record of an answer.
pub fn write_answer<O: Sink>(
    answer: Answer,
    said: &mut Said,
    output: &mut O,
) -> Result<(), Ending> {
    let Said {
        frames,
        out,
        inner,
        front,
    } = said;
    put_inner(answer, frames.as_slice(), inner)?;
    write_record(
        answer.kind(),
        inner.as_slice(),
        out.as_slice(),
        front,
        output,
    )
}

/// Puts what stands in an answer before its end, and isn't there yet.
fn put_inner(answer: Answer, frames: &[u32], inner: &mut Bytes) -> Result<(), NoMemory> {
    match answer {
        Answer::Taken => put_frames(frames, inner),
        Answer::Refused(fault) => put_fault(fault, inner),
        Answer::Wrong(wrong) => put_bytes(inner, wrong.name().as_bytes()),
        Answer::Done
        | Answer::Written
        | Answer::Picture
        | Answer::NoMemory
        | Answer::Untimely
        | Answer::Unknown => Ok(()),
    }
}

/// Puts the frames that have ended, behind their count.
fn put_frames(frames: &[u32], inner: &mut Bytes) -> Result<(), NoMemory> {
    // A message has no room for so many.
    let count = u32::try_from(frames.len()).unwrap_or(u32::MAX);
    put_items(inner, &[count])?;
    put_items(inner, frames)
}

/// Puts the number of the message that is refused, and why.
fn put_fault(fault: ClientFault, inner: &mut Bytes) -> Result<(), NoMemory> {
    let (number, name) = match fault {
        ClientFault::Refused { number, refusal } | ClientFault::ClosedRefused { number, refusal } =>
            (number, refusal.name()),
        ClientFault::Memory | ClientFault::ClosedMemory => (0, "Memory"),
    };
    put_items(inner, &[number])?;
    put_bytes(inner, name.as_bytes())
}

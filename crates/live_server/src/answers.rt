//! Answers: what is written for each record that was read.

use crate::bodies::BodyFault;
use gfx_base::{Bytes, NoMemory, Sink};
use gfx_layout::{put_bytes, put_items};
use gfx_schedule::Turned;
use gfx_script::ScriptKind;
use gfx_session::{LiveFault, ServerFault, ShownFrame};
use live_records::{Ending, write_record};
use std::alloc::Global;

/// What is answered to a record. What goes to the client stands in `Said`.
#[derive(Clone, Copy, Debug)]
pub enum Answer {
    /// The client's bytes were taken.
    Taken,
    /// They were refused, and nothing of the client is taken any more.
    Denied(Denial),
    /// It is done.
    Done,
    /// What was said is wrong, and changed nothing.
    Wrong(ScriptKind),
    /// The script has no room for it, and nothing was changed.
    Full,
    /// No memory is left for it.
    NoMemory,
    /// It isn't the time for it: there is no server's end yet, or there is one already.
    Untimely,
    /// There was a turn.
    Served(Turned),
    /// Yes or no.
    Says(bool),
    /// So many steps weren't sent yet.
    Behind(u32),
    /// There is no such record.
    Unknown,
}

/// Why nothing of the client is taken any more.
#[derive(Clone, Copy, Debug)]
pub enum Denial {
    /// The server's end has a fault.
    Fault(ServerFault),
    /// The client's first message is too long.
    TooLong,
    /// No head can be made for it.
    Head(ScriptKind),
}

impl Denial {
    /// The name that is told.
    fn name(self) -> &'static str {
        match self {
            Denial::Fault(ServerFault::Refused(refusal)) => refusal.name(),
            Denial::Fault(ServerFault::Ack(_)) => "AckUnknown",
            Denial::Fault(ServerFault::Memory) => "Memory",
            Denial::Fault(ServerFault::Closed) => "Closed",
            Denial::TooLong => "TooLong",
            Denial::Head(kind) => kind.name(),
        }
    }
}

impl From<BodyFault> for Answer {
    fn from(fault: BodyFault) -> Answer {
        match fault {
            BodyFault::Wrong(kind) => Answer::Wrong(kind),
            BodyFault::Memory => Answer::NoMemory,
        }
    }
}

impl From<LiveFault> for Answer {
    fn from(fault: LiveFault) -> Answer {
        match fault {
            LiveFault::Wrong(kind) => Answer::Wrong(kind),
            LiveFault::Full => Answer::Full,
            LiveFault::Memory => Answer::NoMemory,
        }
    }
}

impl Answer {
    /// The kind of its record.
    fn kind(self) -> u8 {
        match self {
            Answer::Taken => b'A',
            Answer::Denied(_) => b'R',
            Answer::Done => b'O',
            Answer::Wrong(_) => b'W',
            Answer::Full => b'F',
            Answer::NoMemory => b'N',
            Answer::Untimely => b'E',
            Answer::Served(_) => b'S',
            Answer::Says(true) => b'Y',
            Answer::Says(false) => b'-',
            Answer::Behind(_) => b'B',
            Answer::Unknown => b'U',
        }
    }
}

/// What is said with an answer. Its room is used again for each.
#[derive(Drop)]
pub struct Said {
    /// What goes to the client.
    pub out: Bytes,
    /// The frames whose acknowledgements were taken.
    pub shown: Vec<ShownFrame>,
    /// What stands in the answer before what goes to the client.
    inner: Bytes,
    /// The front of the record, and that.
    front: Bytes,
}

impl Said {
    /// Nothing is said yet.
    pub fn new(alloc: Global) -> Said {
        Said {
            out: Bytes::new(alloc),
            shown: Vec::new(alloc),
            inner: Bytes::new(alloc),
            front: Bytes::new(alloc),
        }
    }

    /// Takes back what was said.
    pub fn clear(&mut self) {
        self.out.truncate(0);
        self.shown.clear();
    }
}

/// Writes the record of an answer.
pub fn write_answer<O: Sink>(
    answer: Answer,
    said: &mut Said,
    output: &mut O,
) -> Result<(), Ending> {
    let Said {
        out,
        shown,
        inner,
        front,
    } = said;
    inner.truncate(0);
    put_inner(answer, shown.as_slice(), inner)?;
    write_record(
        answer.kind(),
        inner.as_slice(),
        out.as_slice(),
        front,
        output,
    )
}

/// Puts what stands in an answer before what goes to the client.
fn put_inner(answer: Answer, shown: &[ShownFrame], inner: &mut Bytes) -> Result<(), NoMemory> {
    match answer {
        Answer::Taken => put_shown(shown, inner),
        Answer::Denied(denial) => put_bytes(inner, denial.name().as_bytes()),
        Answer::Wrong(kind) => put_bytes(inner, kind.name().as_bytes()),
        Answer::Served(turned) => inner.push(number_of(turned)),
        Answer::Behind(steps) => put_items(inner, &[steps]),
        Answer::Done
        | Answer::Full
        | Answer::NoMemory
        | Answer::Untimely
        | Answer::Says(_)
        | Answer::Unknown => Ok(()),
    }
}

/// The number that stands for what a turn did.
fn number_of(turned: Turned) -> u8 {
    match turned {
        Turned::Moved => 0,
        Turned::Waiting => 1,
        Turned::Ended => 2,
    }
}

/// Puts the frames whose acknowledgements were taken, behind their count.
fn put_shown(shown: &[ShownFrame], inner: &mut Bytes) -> Result<(), NoMemory> {
    // There are never more than the window has.
    let count = u32::try_from(shown.len()).unwrap_or(u32::MAX);
    put_items(inner, &[count])?;
    'frames: for frame in shown {
        put_items(inner, &[frame.frame, frame.step])?;
        put_digest(frame.digest, inner)?;
    }
    Ok(())
}

/// Puts whether there is a digest, and the digest.
fn put_digest(digest: Option<[u8; 32]>, inner: &mut Bytes) -> Result<(), NoMemory> {
    match digest {
        None => inner.push(0),
        Some(digest) => {
            inner.push(1)?;
            inner.append(&digest)
        }
    }
}

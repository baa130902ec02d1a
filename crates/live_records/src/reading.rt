//! Records that come: a kind, how long a body is, and the body.

ghost use Rattle.std.specs.Prelude.{◌<◌, ◌≤◌, IfOk, OnOk, length};

use crate::ending::Ending;
use gfx_base::Source;

/// How many bytes stand before a body: its kind, and its length as a number of four bytes.
const FRONT: usize = 5;

/// How long bodies may be: those of one kind, and those of all others.
#[derive(Clone, Copy, Debug)]
pub struct Limits {
    /// The kind whose bodies may be long.
    pub long: u8,
    /// The most bytes of such a body.
    pub most_long: u32,
    /// The most bytes of any other body.
    pub most: u32,
}

/// A record.
#[derive(Clone, Copy, Debug)]
pub struct Record<'a> {
    /// Its kind, an ASCII letter.
    pub kind: u8,
    /// What it says.
    pub body: &'a [u8],
}

/// What stands before a body.
#[derive(Clone, Copy, Debug)]
struct Front {
    kind: u8,
    length: u32,
}

/// Reads the next record, whose body stays in `room`; none where the input ends before it. A length that its kind
/// can't have ends the reading before any of the body is read.
pub fn read_record<'a, I: Source>(
    input: &mut I,
    limits: Limits,
    room: &'a mut Vec<u8>,
) -> Result<Option<Record<'a>>, Ending> {
    let Some(front) = read_front(input)? else {
        return Ok(None);
    };
    if front.length > most_of(limits, front.kind) {
        return Err(Ending::TooLong);
    }
    let length = front.length as usize;
    make_room(room, length)?;
    let (body, _) = room.as_mut_slice().split_at_mut(length);
    if read_all(input, body)? < length {
        return Err(Ending::Cut);
    }
    Ok(Some(Record {
        kind: front.kind,
        body,
    }))
}

/// The most bytes of the body of a record of this kind.
fn most_of(limits: Limits, kind: u8) -> u32 {
    if kind == limits.long {
        limits.most_long
    } else {
        limits.most
    }
}

/// Reads what stands before a body; none where the input ends before it.
fn read_front<I: Source>(input: &mut I) -> Result<Option<Front>, Ending> {
    let mut bytes = [0; FRONT];
    let count = read_all(input, &mut bytes)?;
    if count == 0 {
        return Ok(None);
    }
    if count < FRONT {
        return Err(Ending::Cut);
    }
    let [kind, first, second, third, fourth] = bytes;
    Ok(Some(Front {
        kind,
        length: u32::from_le_bytes([first, second, third, fourth]),
    }))
}

/// Sees that there is room for so many bytes. What there was stays: it is only made larger.
fn make_room(room: &mut Vec<u8>, least: usize) -> Result<(), Ending>
    ensures { OnOk result (least ≤ length room.new.items) }
{
    if room.len() < least && room.resize(least, 0).is_err() {
        return Err(Ending::Memory);
    }
    Ok(())
}

/// Fills a buffer from its front, until the input ends, and says how many bytes came.
fn read_all<I: Source>(input: &mut I, buffer: &mut [u8]) -> Result<usize, Ending> {
    let mut at = 0;
    'pieces: while at < buffer.len() {
        let count = read_piece(input, &mut buffer[at..])?;
        if count == 0 {
            break;
        }
        at += count;
    }
    Ok(at)
}

/// Fills a front of a buffer, and says how many bytes that were; 0 where the input has ended.
fn read_piece<I: Source>(input: &mut I, buffer: &mut [u8]) -> Result<usize, Ending>
    requires { 0 < length buffer.old }
    ensures { IfOk result (λ count. count ≤ length buffer.old) }
{
    match input.read(buffer) {
        Ok(count) => Ok(count),
        Err(_) => Err(Ending::Read),
    }
}

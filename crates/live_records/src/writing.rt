//! Records that are written.

use crate::ending::Ending;
use gfx_base::{Bytes, NoMemory, Sink, write_all};

/// Writes a record whose body is in two parts. `front` is room, which is used again for each.
pub fn write_record<O: Sink>(
    kind: u8,
    inner: &[u8],
    rest: &[u8],
    front: &mut Bytes,
    output: &mut O,
) -> Result<(), Ending> {
    let Ok(length) = u32::try_from(inner.len().saturating_add(rest.len())) else {
        return Err(Ending::LongAnswer);
    };
    front.truncate(0);
    put_front(kind, length, inner, front)?;
    write_bytes(front.as_slice(), output)?;
    write_bytes(rest, output)
}

/// Puts the kind of a record, the length of its body and the first part of that, so that they go at once.
fn put_front(kind: u8, length: u32, inner: &[u8], front: &mut Bytes) -> Result<(), NoMemory> {
    front.push(kind)?;
    front.append(&length.to_le_bytes())?;
    front.append(inner)
}

fn write_bytes<O: Sink>(bytes: &[u8], output: &mut O) -> Result<(), Ending> {
    match write_all(output, bytes) {
        Ok(()) => Ok(()),
        Err(_) => Err(Ending::Write),
    }
}

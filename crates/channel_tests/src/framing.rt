//! Channel messages as they stand.
use crate::claiming::claim;
use gfx_base::{Bytes, Fault, NoMemory};
use gfx_segment::{Splitter, wrap};
use std::alloc::Global;

/// Lets go of a splitter, which is proved once here.
fn let_go(splitter: Splitter) {
    drop(splitter);
}

/// Two payloads as channel messages, the second of them empty.
const TWO: [u8; 16] = [6, 0, 0, 0, 0xe0, 4, 0x0c, 0, 0, 0, 2, 0, 0, 0, 0xe0, 4];

/// Both as they stand behind their lengths.
const RAW: [&[u8]; 2] = [&[0xe0, 4, 0x0c, 0, 0, 0], &[0xe0, 4]];

/// Whether the next message is this as it stands.
fn gives_raw(splitter: &mut Splitter, due: &[u8]) -> Result<bool, Fault> {
    match splitter.next_raw()? {
        Some(message) => Ok(message.as_slice() == due),
        None => Ok(false),
    }
}

/// Whether these bytes are given as the two messages that they are.
fn are_given(splitter: &mut Splitter, bytes: &[u8]) -> Result<bool, Fault> {
    splitter.feed(bytes)?;
    for message in &RAW {
        if !gives_raw(splitter, message)? {
            return Ok(false);
        }
    }
    Ok(splitter.next_raw()?.is_none())
}

/// The two payloads, as they are written.
fn two_messages(alloc: Global) -> Result<Bytes, NoMemory> {
    let mut out = Bytes::new(alloc);
    wrap(&[0x0c, 0, 0, 0], &mut out)?;
    wrap(&[], &mut out)?;
    Ok(out)
}

/// Whether they are written so, and given so by a new splitter.
fn stand_as_they_are(alloc: Global) -> Result<bool, Fault> {
    let written = two_messages(alloc)?;
    let mut splitter = Splitter::new(alloc);
    let given = are_given(&mut splitter, written.as_slice());
    let_go(splitter);
    Ok(given? && written.as_slice() == TWO.as_slice())
}

#[test]
fn a_message_is_given_as_it_stands(rt: HostRuntime) {
    claim(&rt, stand_as_they_are(rt.alloc()));
}

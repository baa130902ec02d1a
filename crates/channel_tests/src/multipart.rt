//! A raw paint that goes in two segments: how it is cut, and what a client shows of it, given byte by byte or at once.
use crate::claiming::claim;
use gfx_base::{Bytes, Fault, NoMemory, Pixel};
use gfx_client::{Client, Offers, Stepped};
use gfx_segment::{Splitter, wrap};
use gfx_surface::Surface;
use std::alloc::Global;

/// Lets go of a splitter, which is proved once here.
fn let_go(splitter: Splitter) {
    drop(splitter);
}

/// The payload, but for its pixels: WireToSurface1 of 128 by 128 pixels for surface 1, uncompressed and XRGB.
const PAINT: [u8; 25] = [
    1, 0, 0, 0, 0x19, 0, 1, 0, 1, 0, 0, 0, 0x20, 0, 0, 0, 0, 128, 0, 128, 0, 0, 0, 1, 0,
];

/// How many pixels it has, and how many bytes the payload.
const PIXELS: usize = 16_384;

const PAYLOAD: usize = 65_561;

/// How it begins as a channel message, and how the second segment begins.
const FRONT: [u8; 16] = [0x2a, 0, 1, 0, 0xe1, 2, 0, 0x19, 0, 1, 0, 0, 0, 1, 0, 4];

const SECOND: [u8; 5] = [27, 0, 0, 0, 4];

/// The pixel at a place, in rows of 128.
fn pixel_of(place: usize) -> Pixel {
    Pixel {
        b: (place % 251) as u8,
        g: (place / 128 % 256) as u8,
        r: (place % 7) as u8,
        a: 255,
    }
}

/// The payload.
fn payload(alloc: Global) -> Result<Bytes, NoMemory> {
    let mut payload = Bytes::new(alloc);
    payload.append(&PAINT)?;
    for place in 0..PIXELS {
        let Pixel { b, g, r, .. } = pixel_of(place);
        payload.append(&[b, g, r, 0])?;
    }
    Ok(payload)
}

/// Puts the payload's channel message behind these bytes.
fn put_wrapped(payload: &[u8], out: &mut Bytes) -> Result<(), NoMemory> {
    if payload.len() == PAYLOAD {
        wrap(payload, out)?;
    }
    Ok(())
}

/// The channel message of a payload of that size.
fn wrapped(alloc: Global, payload: &[u8]) -> Result<Bytes, NoMemory> {
    let mut out = Bytes::new(alloc);
    put_wrapped(payload, &mut out)?;
    Ok(out)
}

/// Whether a channel message stands in two segments.
fn is_in_two(message: &[u8]) -> bool {
    message.len() == 0x0001_002a + 4
        && message.starts_with(&FRONT)
        && message.get(65_551..65_556) == Some(SECOND.as_slice())
}

/// Whether a splitter that is given one more byte has a message, and which: this payload, or another.
fn gives(splitter: &mut Splitter, byte: u8, payload: &[u8]) -> Result<Option<bool>, Fault> {
    splitter.feed(&[byte])?;
    match splitter.next_message()? {
        Some(found) => Ok(Some(found.as_slice() == payload)),
        None => Ok(None),
    }
}

/// Whether these bytes, given one by one, are this payload, and it is there at the last of them.
fn is_given(splitter: &mut Splitter, bytes: &[u8], payload: &[u8]) -> Result<bool, Fault> {
    let Some((last, front)) = bytes.split_last() else {
        return Ok(false);
    };
    for byte in front {
        if gives(splitter, *byte, payload)?.is_some() {
            return Ok(false);
        }
    }
    Ok(gives(splitter, *last, payload)? == Some(true))
}

/// Whether this payload goes in two segments and comes back from them.
fn goes_in_two(alloc: Global, splitter: &mut Splitter, payload: &[u8]) -> Result<bool, Fault> {
    let message = wrapped(alloc, payload)?;
    let given = is_given(splitter, message.as_slice(), payload);
    Ok(is_in_two(message.as_slice()) && given?)
}

/// The same with a new splitter.
fn is_cut_in_two(alloc: Global) -> Result<bool, Fault> {
    let payload = payload(alloc)?;
    let mut splitter = Splitter::new(alloc);
    let right = goes_in_two(alloc, &mut splitter, payload.as_slice());
    let_go(splitter);
    right
}

#[test]
fn a_long_payload_goes_in_two_segments(rt: HostRuntime) {
    claim(&rt, is_cut_in_two(rt.alloc()));
}

/// CreateSurface 1 of 128 by 128, XRGB, as a channel message.
const CREATE: [u8; 21] = [
    0x11, 0, 0, 0, 0xe0, 4, 9, 0, 0, 0, 0xf, 0, 0, 0, 1, 0, 128, 0, 128, 0, 0x20,
];

/// A surface, and the paint of it.
fn stream(alloc: Global) -> Result<Bytes, NoMemory> {
    let payload = payload(alloc)?;
    let mut out = Bytes::new(alloc);
    out.append(&CREATE)?;
    put_wrapped(payload.as_slice(), &mut out)?;
    Ok(out)
}

/// Applies messages until more bytes are needed, four at most. A fault ends it too.
fn step_on(client: &mut Client) {
    for _ in 0..4 {
        if !matches!(client.step(), Ok(Stepped::Applied { .. })) {
            break;
        }
    }
}

/// Gives bytes to a client, so many at a time, and applies what is whole behind each piece.
fn give(client: &mut Client, bytes: &[u8], size: usize) {
    for piece in bytes.chunks(size.max(1)) {
        if client.take(piece).is_err() {
            break;
        }
        step_on(client);
    }
}

/// Whether a surface shows the paint.
fn is_painted(surface: &Surface) -> bool {
    if surface.size() != (128, 128) {
        return false;
    }
    for y in 0..128 {
        for x in 0..128 {
            if surface.pixel(x, y) != pixel_of(usize::from(y) * 128 + usize::from(x)) {
                return false;
            }
        }
    }
    true
}

/// Whether a client holds the painted surface and nothing else, and has applied both messages whole.
fn has_paint(client: &mut Client) -> bool {
    let needs = matches!(client.step(), Ok(Stepped::Need));
    let painted = match client.surfaces().get(1) {
        Some(surface) => is_painted(surface),
        None => false,
    };
    needs && painted && client.applied() == 2 && client.records().count() == 0
}

/// The same of a new client that is given bytes in pieces of this size.
fn shows_paint(alloc: Global, bytes: &[u8], size: usize) -> Result<bool, NoMemory> {
    let mut client = Client::new(alloc, Offers::new(alloc))?;
    give(&mut client, bytes, size);
    let right = has_paint(&mut client);
    client.let_go();
    Ok(right)
}

/// Whether one byte at a time leaves what all bytes at once leave.
fn is_shown_however_cut(alloc: Global) -> Result<bool, Fault> {
    let bytes = stream(alloc)?;
    for size in &[bytes.len(), 1] {
        if !shows_paint(alloc, bytes.as_slice(), *size)? {
            return Ok(false);
        }
    }
    Ok(true)
}

#[test]
fn a_paint_byte_by_byte_is_the_paint_at_once(rt: HostRuntime) {
    claim(&rt, is_shown_however_cut(rt.alloc()));
}

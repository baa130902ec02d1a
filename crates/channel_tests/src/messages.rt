//! The fifteen messages, their bytes written by hand from the format.
ghost use Rattle.gfx_pdu.specs.Spelling.{IsSpellable};

use gfx_base::{Bytes, Fault, NoMemory};
use gfx_pdu::{Pdu, read_pdu, write_pdu};
use std::alloc::Global;

/// A message, and its fields as another implementation of the format reads them.
struct Message {
    bytes: &'static [u8],
    /// So many zeros stand behind the bytes.
    zeros: usize,
    text: &'static str,
}

const MESSAGES: [Message; 15] = [
    Message {
        bytes: b"\x01\x00\x00\x00\x1d\x00\x00\x00\x02\x01\x00\x00\x20\x01\x00\x02\x00\x03\x00\x04\x03\x04\x00\x00\x00\x09\x08\x07\xff",
        zeros: 0,
        text: "WireToSurface1 { surface: 258, codec: 0, format: 32, rect: Rect { left: 1, top: 2, right: 3, bottom: 772 }, payload: Items { items: [9, 8, 7, 255] } }",
    },
    Message {
        bytes: b"\x02\x00\x00\x00\x18\x00\x00\x00\x02\x01\x09\x00\x04\x03\x02\x01\x20\x03\x00\x00\x00\xc2\xcc\x06",
        zeros: 0,
        text: "WireToSurface2 { surface: 258, codec: 9, context: 16909060, format: 32, payload: Items { items: [194, 204, 6] } }",
    },
    Message {
        bytes: b"\x03\x00\x00\x00\x0e\x00\x00\x00\x02\x01\x06\x05\x04\x03",
        zeros: 0,
        text: "DeleteEncodingContext { surface: 258, context: 50595078 }",
    },
    Message {
        bytes: b"\x04\x00\x00\x00\x20\x00\x00\x00\x02\x01\x01\x02\x03\xff\x02\x00\x00\x00\x00\x00\x0a\x00\x02\x01\x05\x00\x06\x00\x07\x00\x08\x00",
        zeros: 0,
        text: "SolidFill { surface: 258, colour: Pixel { b: 1, g: 2, r: 3, a: 255 }, rects: Items { items: [Rect { left: 0, top: 0, right: 10, bottom: 258 }, Rect { left: 5, top: 6, right: 7, bottom: 8 }] } }",
    },
    Message {
        bytes: b"\x05\x00\x00\x00\x1e\x00\x00\x00\x02\x01\x04\x03\x01\x00\x02\x00\x03\x00\x04\x00\x02\x00\x05\x00\x06\x00\x08\x07\x09\x00",
        zeros: 0,
        text: "SurfaceToSurface { source: 258, destination: 772, rect: Rect { left: 1, top: 2, right: 3, bottom: 4 }, points: Items { items: [Point { x: 5, y: 6 }, Point { x: 1800, y: 9 }] } }",
    },
    Message {
        bytes: b"\x06\x00\x00\x00\x1c\x00\x00\x00\x02\x01\x08\x07\x06\x05\x04\x03\x02\x01\x0a\x09\x01\x00\x02\x00\x03\x00\x04\x00",
        zeros: 0,
        text: "SurfaceToCache { surface: 258, key: 72623859790382856, slot: 2314, rect: Rect { left: 1, top: 2, right: 3, bottom: 4 } }",
    },
    Message {
        bytes: b"\x07\x00\x00\x00\x12\x00\x00\x00\x02\x01\x04\x03\x01\x00\x05\x00\x07\x06",
        zeros: 0,
        text: "CacheToSurface { slot: 258, surface: 772, points: Items { items: [Point { x: 5, y: 1543 }] } }",
    },
    Message {
        bytes: b"\x08\x00\x00\x00\x0a\x00\x00\x00\x02\x01",
        zeros: 0,
        text: "EvictCacheEntry { slot: 258 }",
    },
    Message {
        bytes: b"\x09\x00\x00\x00\x0f\x00\x00\x00\x02\x01\x40\x00\x00\x03\x21",
        zeros: 0,
        text: "CreateSurface { id: 258, width: 64, height: 768, format: 33 }",
    },
    Message {
        bytes: b"\x0a\x00\x00\x00\x0a\x00\x00\x00\x02\x01",
        zeros: 0,
        text: "DeleteSurface { id: 258 }",
    },
    Message {
        bytes: b"\x0b\x00\x00\x00\x10\x00\x00\x00\x04\x03\x02\x01\x08\x07\x06\x05",
        zeros: 0,
        text: "StartFrame { timestamp: 16909060, frame: 84281096 }",
    },
    Message {
        bytes: b"\x0c\x00\x00\x00\x0c\x00\x00\x00\x04\x03\x02\x01",
        zeros: 0,
        text: "EndFrame { frame: 16909060 }",
    },
    Message {
        bytes: b"\x0f\x00\x00\x00\x14\x00\x00\x00\x02\x01\x04\x03\x08\x07\x06\x05\x0c\x0b\x0a\x09",
        zeros: 0,
        text: "MapSurfaceToOutput { id: 258, reserved: 772, x: 84281096, y: 151653132 }",
    },
    Message {
        bytes: b"\x13\x00\x00\x00\x14\x00\x00\x00\x02\x00\x0a\x00\x04\x00\x00\x00\x02\x00\x00\x00",
        zeros: 0,
        text: "CapsConfirm { version: 655362, payload: Items { items: [2, 0, 0, 0] } }",
    },
    Message {
        bytes: b"\x0e\x00\x00\x00\x54\x01\x00\x00\x00\x04\x00\x00\x00\x03\x00\x00\x02\x00\x00\x00\x00\x00\x00\x00\x00\x00\x00\x00\xff\x03\x00\x00\xff\x02\x00\x00\x01\x00\x00\x00\x00\x04\x00\x00\xff\xff\xff\xff\xff\x07\x00\x00\xff\x02\x00\x00\x00\x00\x00\x00",
        zeros: 280,
        text: "ResetGraphics { width: 1024, height: 768, monitors: Items { items: [Monitor { left: 0, top: 0, right: 1023, bottom: 767, flags: 1 }, Monitor { left: 1024, top: 4294967295, right: 2047, bottom: 767, flags: 0 }] } }",
    },
];

/// Bytes, with so many zeros behind them.
fn bytes_of(alloc: Global, bytes: &[u8], zeros: usize) -> Result<Bytes, NoMemory> {
    let mut all = Bytes::new(alloc);
    all.append(bytes)?;
    for _ in 0..zeros {
        all.push(0)?;
    }
    Ok(all)
}

/// Whether a message has these fields as its text.
fn is_told(alloc: Global, pdu: &Pdu, text: &str) -> Result<bool, NoMemory> {
    let told = format!(in alloc; "{pdu:?}")?;
    Ok(told.as_str() == text)
}

/// Whether a message is written as these bytes.
fn is_written(alloc: Global, pdu: &Pdu, bytes: &[u8]) -> Result<bool, NoMemory>
    requires { IsSpellable pdu.now }
{
    let mut out = Bytes::new(alloc);
    write_pdu(pdu, &mut out)?;
    Ok(out.as_slice() == bytes)
}

/// Whether a message has this text and these bytes.
fn is_right(alloc: Global, pdu: &Pdu, text: &str, bytes: &[u8]) -> Result<bool, NoMemory>
    requires { IsSpellable pdu.now }
{
    Ok(is_told(alloc, pdu, text)? && is_written(alloc, pdu, bytes)?)
}

/// Whether bytes are one message with this text, and it is written as they are.
fn stand_for(alloc: Global, bytes: &[u8], text: &str) -> Result<bool, Fault> {
    match read_pdu(alloc, bytes, 0)? {
        Some((pdu, after)) => {
            let right = is_right(alloc, &pdu, text, bytes);
            drop(pdu);
            Ok(after == bytes.len() && right?)
        }
        None => Ok(false),
    }
}

/// The first of the messages that isn't read and written back, if one isn't.
fn first_wrong(alloc: Global) -> Result<Option<&'static str>, Fault> {
    for message in &MESSAGES {
        let bytes = bytes_of(alloc, message.bytes, message.zeros)?;
        if !stand_for(alloc, bytes.as_slice(), message.text)? {
            return Ok(Some(message.text));
        }
    }
    Ok(None)
}

#[test]
fn each_message_is_read_and_written_back(rt: HostRuntime) {
    assert_eq!(rt; first_wrong(rt.alloc()), Ok(None));
}

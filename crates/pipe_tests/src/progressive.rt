//! Tiles of RemoteFX Progressive, drawn by `render`; the answers are those of an independent program.
use crate::claiming::claim;
use crate::examples::{FILL, RED, answers};
use gfx_base::NoMemory;
use gfxpipe::Status;
use std::alloc::Global;

/// Two grey pixels.
const GREY: &str = "surface 1 2x1 xrgb\n808080ff808080ff\n";

/// WireToSurface2 of Progressive for surface 1 in context 1: a first tile of grey.
const GREY_TILE: &[u8] =
    b"\x70\0\0\0\xe0\x04\x02\0\0\0\x6e\0\0\0\x01\0\x09\0\x01\0\0\0\x20\x59\0\0\0\
\xc4\xcc\x59\0\0\0\x40\x01\0\x03\x01\x01\x01\0\x20\0\0\0\0\0\0\0\x40\0\x40\0\
\x66\x66\x66\x66\x66\x66\x66\x66\x66\x66\x66\x66\x66\x66\x66\
\0\x44\x44\x44\x44\x44\x44\x44\x44\x44\x44\x44\x44\x44\x44\x44\
\xc6\xcc\x20\0\0\0\0\x01\x02\0\0\0\0\0\0\x03\0\x03\0\x03\0\0\0\0\0\0\0\0\0\0\0\0";

/// An upgrade of that tile to the same level, and the same in context 2.
const UPGRADE: &[u8] = b"\x6a\0\0\0\xe0\x04\x02\0\0\0\x68\0\0\0\x01\0\x09\0\x01\0\0\0\x20\x53\0\0\0\
\xc4\xcc\x53\0\0\0\x40\x01\0\x03\x01\x01\x01\0\x1a\0\0\0\0\0\0\0\x40\0\x40\0\
\x66\x66\x66\x66\x66\x66\x66\x66\x66\x66\x66\x66\x66\x66\x66\
\0\x44\x44\x44\x44\x44\x44\x44\x44\x44\x44\x44\x44\x44\x44\x44\
\xc7\xcc\x1a\0\0\0\0\x01\x02\0\0\0\0\0\0\0\0\0\0\0\0\0\0\0\0\0";

const UPGRADE_ELSEWHERE: &[u8] =
    b"\x6a\0\0\0\xe0\x04\x02\0\0\0\x68\0\0\0\x01\0\x09\0\x02\0\0\0\x20\x53\0\0\0\
\xc4\xcc\x53\0\0\0\x40\x01\0\x03\x01\x01\x01\0\x1a\0\0\0\0\0\0\0\x40\0\x40\0\
\x66\x66\x66\x66\x66\x66\x66\x66\x66\x66\x66\x66\x66\x66\x66\
\0\x44\x44\x44\x44\x44\x44\x44\x44\x44\x44\x44\x44\x44\x44\x44\
\xc7\xcc\x1a\0\0\0\0\x01\x02\0\0\0\0\0\0\0\0\0\0\0\0\0\0\0\0\0";

/// The grey tile, and behind it in one region a tile whose cell is outside.
const HALF_OUTSIDE: &[u8] =
    b"\x86\0\0\0\xe0\x04\x02\0\0\0\x84\0\0\0\x01\0\x09\0\x01\0\0\0\x20\x6f\0\0\0\
\xc4\xcc\x6f\0\0\0\x40\x01\0\x03\x01\x01\x02\0\x36\0\0\0\0\0\0\0\x40\0\x40\0\
\x66\x66\x66\x66\x66\x66\x66\x66\x66\x66\x66\x66\x66\x66\x66\
\0\x44\x44\x44\x44\x44\x44\x44\x44\x44\x44\x44\x44\x44\x44\x44\
\xc6\xcc\x20\0\0\0\0\x01\x02\0\0\0\0\0\0\x03\0\x03\0\x03\0\0\0\0\0\0\0\0\0\0\0\0\
\xc5\xcc\x16\0\0\0\0\x01\x02\x05\0\0\0\0\0\0\0\0\0\0\0\0";

/// DeleteEncodingContext of context 1.
const DELETE_CONTEXT: &[u8] = b"\x10\0\0\0\xe0\x04\x03\0\0\0\x0e\0\0\0\x01\0\x01\0\0\0";

/// The red surface, and these messages behind it.
fn stream(alloc: Global, messages: &[&[u8]]) -> Result<Vec<u8>, NoMemory> {
    let mut bytes = Vec::new(alloc);
    bytes.extend_from_slice(&FILL[..73])?;
    for message in messages {
        bytes.extend_from_slice(message)?;
    }
    Ok(bytes)
}

/// Messages behind the red surface, how `render` ends with them, what it shows, and what it says.
struct Case {
    messages: &'static [&'static [u8]],
    status: Status,
    out: &'static str,
    err: &'static str,
}

const CASES: [Case; 5] = [
    Case {
        messages: &[GREY_TILE, UPGRADE],
        status: Status::Done,
        out: GREY,
        err: "",
    },
    Case {
        messages: &[HALF_OUTSIDE],
        status: Status::Refused,
        out: RED,
        err: "message 4: 41 TileOutside\n",
    },
    Case {
        messages: &[UPGRADE],
        status: Status::Refused,
        out: RED,
        err: "message 4: 45 NoFirstPass\n",
    },
    Case {
        messages: &[GREY_TILE, UPGRADE_ELSEWHERE],
        status: Status::Refused,
        out: GREY,
        err: "message 5: 45 NoFirstPass\n",
    },
    Case {
        messages: &[GREY_TILE, DELETE_CONTEXT, UPGRADE],
        status: Status::Refused,
        out: GREY,
        err: "message 6: 45 NoFirstPass\n",
    },
];

/// Whether `render` answers a case so.
fn is_drawn(alloc: Global, case: &Case) -> Result<bool, NoMemory> {
    let bytes = stream(alloc, case.messages)?;
    let out = case.out.as_bytes();
    answers(alloc, &["render"], &bytes, case.status, out, case.err)
}

/// Whether it answers each so.
fn all_are_drawn(alloc: Global) -> Result<bool, NoMemory> {
    for case in &CASES {
        if !is_drawn(alloc, case)? {
            return Ok(false);
        }
    }
    Ok(true)
}

#[test]
fn tiles_are_drawn_whole_or_not_at_all(rt: HostRuntime) {
    claim(&rt, all_are_drawn(rt.alloc()));
}

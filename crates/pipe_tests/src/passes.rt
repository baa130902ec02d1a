//! Paints in passes, by RemoteFX Progressive: what `encode` sends of them, what `render` shows of that, and a session.
//! The answers are those of an independent program.
use crate::claiming::claim;
use crate::examples::{answers, ends_with, nobody, run_by, run_on};
use gfx_base::NoMemory;
use gfxpipe::Status;
use std::alloc::Global;

/// The room of a dump of 64 by 64 pixels.
const ROOM: usize = 65_536;

/// What is behind a row of 64 pixels, if it is of this one, in hexadecimal digits.
fn behind_row<'a>(dump: &'a [u8], pixel: &[u8]) -> Option<&'a [u8]> {
    let mut rest = dump;
    for _ in 0..64 {
        rest = rest.strip_prefix(pixel)?;
    }
    rest.strip_prefix(b"\n")
}

/// Whether a dump is of a surface of 64 by 64 pixels, all of which are this one.
fn is_filled(dump: &[u8], pixel: &[u8]) -> bool {
    let Some(mut rest) = dump.strip_prefix(b"surface 1 64x64 xrgb\n") else {
        return false;
    };
    for _ in 0..64 {
        match behind_row(rest, pixel) {
            Some(behind) => rest = behind,
            None => return false,
        }
    }
    rest.is_empty()
}

/// Whether `render` shows such a surface of a stream.
fn renders_filled(alloc: Global, stream: &[u8], pixel: &str) -> Result<bool, NoMemory> {
    let ran = run_by(
        alloc,
        &["render"],
        &mut nobody(alloc),
        ROOM,
        stream,
        &[],
        &[],
    )?;
    Ok(ran.status == Status::Done && is_filled(ran.out.held(), pixel.as_bytes()))
}

/// The same of what `encode` makes of a script.
fn shows_filled(alloc: Global, script: &str, pixel: &str) -> Result<bool, NoMemory> {
    let ran = run_on(alloc, &["encode"], script.as_bytes(), &[], &[])?;
    renders_filled(alloc, ran.out.held(), pixel)
}

const GREY_SCRIPT: &str =
    r#"picture = [{ name = "grey", width = 64, height = 64, pattern = "solid", colour = "808080ff" }]
step = [
    { do = "surface", id = 1, width = 64, height = 64 },
    { do = "paint", id = 1, picture = "grey", at = [0, 0], kind = "progressive" },
    { do = "frame" },
]"#;

/// The message of its paint, and the end of its frame.
const GREY_PAINT: &[u8] =
    b"\x98\0\0\0\xe0\x04\x02\0\0\0\x96\0\0\0\x01\0\x09\0\x01\0\0\0\x20\x81\0\0\0\
\xc0\xcc\x0c\0\0\0\xca\xac\xcc\xca\0\x01\xc3\xcc\x0a\0\0\0\x01\x40\0\0\xc1\xcc\x0c\0\0\0\0\0\0\0\x01\0\
\xc4\xcc\x59\0\0\0\x40\x01\0\x03\x01\x01\x01\0\x20\0\0\0\0\0\0\0\x40\0\x40\0\
\x66\x66\x66\x66\x66\x66\x66\x66\x66\x66\x66\x66\x66\x66\x66\
\0\x44\x44\x44\x44\x44\x44\x44\x44\x44\x44\x44\x44\x44\x44\x44\
\xc6\xcc\x20\0\0\0\0\x01\x02\0\0\0\0\0\0\x03\0\x03\0\x03\0\0\0\0\0\0\0\0\0\0\0\0\
\xc2\xcc\x06\0\0\0\x0e\0\0\0\xe0\x04\x0c\0\0\0\x0c\0\0\0\x01\0\0\0";

#[test]
fn a_paint_is_one_message_of_a_first_tile(rt: HostRuntime) {
    claim(&rt, ends_with(rt.alloc(), GREY_SCRIPT, GREY_PAINT));
}

const WHITE_SCRIPT: &str =
    r#"picture = [{ name = "white", width = 64, height = 64, pattern = "solid", colour = "ffffffff" }]
step = [
    { do = "surface", id = 1, width = 64, height = 64 },
    { do = "paint", id = 1, picture = "white", at = [0, 0], kind = "progressive" },
    { do = "frame" },
]"#;

/// The same, improved.
const WHITER_SCRIPT: &str =
    r#"picture = [{ name = "white", width = 64, height = 64, pattern = "solid", colour = "ffffffff" }]
step = [
    { do = "surface", id = 1, width = 64, height = 64 },
    { do = "paint", id = 1, picture = "white", at = [0, 0], kind = "progressive" },
    { do = "frame" },
    { do = "improve", id = 1 },
    { do = "frame" },
]"#;

#[test]
fn white_is_rough_before_it_is_improved(rt: HostRuntime) {
    claim(&rt, shows_filled(rt.alloc(), WHITE_SCRIPT, "f0f0f0ff"));
    claim(&rt, shows_filled(rt.alloc(), WHITER_SCRIPT, "ffffffff"));
}

/// A picture painted again over itself, once it is at its last level: as differences.
const DIFFERENCE_SCRIPT: &str =
    r#"picture = [{ name = "grey", width = 64, height = 64, pattern = "solid", colour = "808080ff" }]
step = [
    { do = "surface", id = 1, width = 64, height = 64 },
    { do = "paint", id = 1, picture = "grey", at = [0, 0], kind = "progressive" },
    { do = "improve", id = 1 },
    { do = "paint", id = 1, picture = "grey", at = [0, 0], kind = "progressive" },
    { do = "frame" },
]
[progressive]
difference = true
"#;

/// The same before it is at its last level: plainly.
const AGAIN_SCRIPT: &str =
    r#"picture = [{ name = "grey", width = 64, height = 64, pattern = "solid", colour = "808080ff" }]
step = [
    { do = "surface", id = 1, width = 64, height = 64 },
    { do = "paint", id = 1, picture = "grey", at = [0, 0], kind = "progressive" },
    { do = "paint", id = 1, picture = "grey", at = [0, 0], kind = "progressive" },
    { do = "frame" },
]
[progressive]
difference = true
"#;

/// The end of the stream, from the last message's tile on: a difference tile.
const DIFFERENCE_TILE: &[u8] =
    b"\xc6\xcc\x20\0\0\0\0\x01\x02\0\0\0\0\x01\0\x03\0\x03\0\x03\0\0\0\0\0\0\0\0\0\0\0\0\
\xc2\xcc\x06\0\0\0\x0e\0\0\0\xe0\x04\x0c\0\0\0\x0c\0\0\0\x01\0\0\0";

/// A plain one.
const PLAIN_TILE: &[u8] =
    b"\xc6\xcc\x20\0\0\0\0\x01\x02\0\0\0\0\0\0\x03\0\x03\0\x03\0\0\0\0\0\0\0\0\0\0\0\0\
\xc2\xcc\x06\0\0\0\x0e\0\0\0\xe0\x04\x0c\0\0\0\x0c\0\0\0\x01\0\0\0";

#[test]
fn a_tile_at_its_last_level_is_gone_on_from(rt: HostRuntime) {
    claim(
        &rt,
        ends_with(rt.alloc(), DIFFERENCE_SCRIPT, DIFFERENCE_TILE),
    );
    claim(&rt, ends_with(rt.alloc(), AGAIN_SCRIPT, PLAIN_TILE));
    claim(&rt, shows_filled(rt.alloc(), DIFFERENCE_SCRIPT, "808080ff"));
}

/// A desktop of 1,920 by 1,080 in passes, a text by bands, and three improvements.
const DESKTOP_SCRIPT: &str = r#"picture = [
    { name = "desktop", width = 1920, height = 1080, pattern = "desktop" },
    { name = "text", width = 800, height = 600, pattern = "text" },
]
step = [
    { do = "surface", id = 1, width = 1920, height = 1080 },
    { do = "surface", id = 2, width = 800, height = 600 },
    { do = "paint", id = 1, picture = "desktop", at = [0, 0], kind = "progressive" },
    { do = "paint", id = 2, picture = "text", at = [0, 0], kind = "bands" },
    { do = "frame" },
    { do = "improve", id = 1 },
    { do = "frame" },
    { do = "improve", id = 1 },
    { do = "frame" },
    { do = "improve", id = 1 },
    { do = "frame" },
]
[progressive]
transform = "plain"
[[progressive.level]]
y = [6, 6, 6, 6, 6, 6, 6, 6, 6, 6]
cb = [6, 6, 6, 6, 6, 6, 6, 6, 6, 6]
cr = [6, 6, 6, 6, 6, 6, 6, 6, 6, 6]
[[progressive.level]]
y = [4, 4, 4, 4, 4, 4, 4, 4, 4, 4]
cb = [4, 4, 4, 4, 4, 4, 4, 4, 4, 4]
cr = [4, 4, 4, 4, 4, 4, 4, 4, 4, 4]
[[progressive.level]]
y = [2, 2, 2, 2, 2, 2, 2, 2, 2, 2]
cb = [2, 2, 2, 2, 2, 2, 2, 2, 2, 2]
cr = [2, 2, 2, 2, 2, 2, 2, 2, 2, 2]
"#;

const DESKTOP: &str =
    "ack 1 step 7 client ffc49dd782f7011d12702f6624656132504a49da657b64419c7f4eba541c5a6f server ffc49dd782f7011d12702f6624656132504a49da657b64419c7f4eba541c5a6f\n\
    ack 2 step 9 client dfff0bb1c5f05fe09f456f91b11ddecec68c88737430f9c30d509ce1382eed02 server dfff0bb1c5f05fe09f456f91b11ddecec68c88737430f9c30d509ce1382eed02\n\
    ack 3 step 11 client 38324e8103e0ea0170cfc0099af8e24b343faff5871b117b300b4d69433ddb54 server 38324e8103e0ea0170cfc0099af8e24b343faff5871b117b300b4d69433ddb54\n";

#[test]
fn a_desktop_in_passes_is_acknowledged(rt: HostRuntime) {
    let (script, lines) = (DESKTOP_SCRIPT.as_bytes(), DESKTOP.as_bytes());
    let told = answers(rt.alloc(), &["session"], script, Status::Done, lines, "");
    claim(&rt, told);
}

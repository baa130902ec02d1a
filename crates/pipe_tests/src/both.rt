//! Both commands, one behind the other.
use crate::claiming::claim;
use crate::examples::{BLACK, answers, prints, run_on, shows};
use gfx_base::NoMemory;
use gfxpipe::Status;
use std::alloc::Global;

/// A reset of the output to 2 by 2, a surface of 2 by 1 that is red, and its place at (1, 0).
const MAPPED_SCRIPT: &str = r#"step = [
    { do = "reset", width = 2, height = 2 },
    { do = "surface", id = 1, width = 2, height = 1 },
    { do = "fill", id = 1, colour = "0000ff00", rects = [[0, 0, 2, 1]] },
    { do = "map", id = 1, x = 1, y = 0 },
    { do = "frame" },
]"#;

#[test]
fn the_output_of_a_mapped_surface(rt: HostRuntime) {
    let output = "output 2x2\n000000ff0000ffff\n000000ff000000ff\n";
    let words = ["render", "--output"];
    claim(&rt, prints(rt.alloc(), MAPPED_SCRIPT, &words, output));
}

/// A copy, a bitmap that is kept, shown and forgotten, a surface that is deleted, and an output that
/// is wider than a piece of a row.
const WIDE_SCRIPT: &str = r#"step = [
    { do = "reset", width = 600, height = 1 },
    { do = "surface", id = 1, width = 2, height = 1 },
    { do = "surface", id = 2, width = 3, height = 1 },
    { do = "fill", id = 1, colour = "0000ff00", rects = [[0, 0, 1, 1]] },
    { do = "copy", from = 1, to = 2, rect = [0, 0, 2, 1], points = [[1, 0]] },
    { do = "keep", id = 2, key = 5, rect = [0, 0, 3, 1] },
    { do = "delete", id = 1 },
    { do = "show", key = 5, to = 2, points = [[0, 0]] },
    { do = "forget", key = 5 },
    { do = "map", id = 2, x = 598, y = 0 },
    { do = "frame" },
]"#;

/// Whether this is the output of that script.
fn is_wide_output(output: &[u8]) -> bool {
    output.len() == 13 + 4800 + 1
        && output.starts_with(b"output 600x1\n000000ff000000ff")
        && output.ends_with(b"000000ff000000ff0000ffff\n")
}

/// Whether that is the output of a stream.
fn shows_wide_output(alloc: Global, stream: &[u8]) -> Result<bool, NoMemory> {
    let ran = run_on(alloc, &["render", "--output"], stream, &[], &[])?;
    Ok(ran.status == Status::Done && is_wide_output(ran.out.held()))
}

/// Whether it is that of the stream that `encode` makes of the script.
fn output_is_shown(alloc: Global) -> Result<bool, NoMemory> {
    let ran = run_on(alloc, &["encode"], WIDE_SCRIPT.as_bytes(), &[], &[])?;
    shows_wide_output(alloc, ran.out.held())
}

#[test]
fn a_copy_a_delete_and_a_forget(rt: HostRuntime) {
    let dump = "surface 2 3x1 xrgb\n000000ff0000ffff000000ff\n";
    claim(&rt, shows(rt.alloc(), WIDE_SCRIPT, dump));
    claim(&rt, output_is_shown(rt.alloc()));
}

/// A bitmap that is kept and shown.
const KEPT: [u8; 119] = [
    // StartFrame 1.
    0x12, 0, 0, 0, 0xe0, 4, 0xb, 0, 0, 0, 0x10, 0, 0, 0, 0, 0, 0, 0, 1, 0, 0, 0,
    // CreateSurface 1 of 2 by 1, XRGB.
    0x11, 0, 0, 0, 0xe0, 4, 9, 0, 0, 0, 0xf, 0, 0, 0, 1, 0, 2, 0, 1, 0, 0x20,
    // SurfaceToCache: all of it is key 5 in slot 1.
    0x1e, 0, 0, 0, 0xe0, 4, 6, 0, 0, 0, 0x1c, 0, 0, 0, 1, 0, 5, 0, 0, 0, 0, 0, 0, 0, 1, 0, 0, 0, 0,
    0, 2, 0, 1, 0,
    // CacheToSurface: slot 1 at (0, 0).
    0x14, 0, 0, 0, 0xe0, 4, 7, 0, 0, 0, 0x12, 0, 0, 0, 1, 0, 1, 0, 1, 0, 0, 0, 0, 0,
    // EndFrame 1.
    0xe, 0, 0, 0, 0xe0, 4, 0xc, 0, 0, 0, 0xc, 0, 0, 0, 1, 0, 0, 0,
];

/// The script of that stream.
const KEPT_SCRIPT: &str = r#"step = [
    { do = "surface", id = 1, width = 2, height = 1 },
    { do = "keep", id = 1, key = 5, rect = [0, 0, 2, 1] },
    { do = "show", key = 5, to = 1, points = [[0, 0]] },
    { do = "frame" },
]"#;

/// A picture that is painted.
const PAINTED: [u8; 100] = [
    // StartFrame 1.
    0x12, 0, 0, 0, 0xe0, 4, 0xb, 0, 0, 0, 0x10, 0, 0, 0, 0, 0, 0, 0, 1, 0, 0, 0,
    // CreateSurface 1 of 3 by 1, ARGB.
    0x11, 0, 0, 0, 0xe0, 4, 9, 0, 0, 0, 0xf, 0, 0, 0, 1, 0, 3, 0, 1, 0, 0x21,
    // WireToSurface1: two pixels at (1, 0), uncompressed, alpha as it is.
    0x23, 0, 0, 0, 0xe0, 4, 1, 0, 0, 0, 0x21, 0, 0, 0, 1, 0, 0, 0, 0x21, 1, 0, 0, 0, 3, 0, 1, 0, 8,
    0, 0, 0, 1, 2, 3, 4, 5, 6, 7, 8,
    // EndFrame 1.
    0xe, 0, 0, 0, 0xe0, 4, 0xc, 0, 0, 0, 0xc, 0, 0, 0, 1, 0, 0, 0,
];

/// The script of that stream.
const PAINTED_SCRIPT: &str =
    r#"picture = [{ name = "two", width = 2, height = 1, pattern = "hex", pixels = "0102030405060708" }]
step = [
    { do = "surface", id = 1, width = 3, height = 1, format = "argb" },
    { do = "paint", id = 1, picture = "two", at = [1, 0], kind = "raw" },
    { do = "frame" },
]"#;

/// Whether `encode` makes this stream of a script, and `render` shows this of it.
fn goes_as(alloc: Global, script: &str, stream: &[u8], text: &str) -> Result<bool, NoMemory> {
    let done = Status::Done;
    Ok(
        answers(alloc, &["encode"], script.as_bytes(), done, stream, "")?
            && answers(alloc, &["render"], stream, done, text.as_bytes(), "")?,
    )
}

/// The picture's alpha stays on a surface that keeps it.
#[test]
fn bitmaps_and_pictures(rt: HostRuntime) {
    let painted = "surface 1 3x1 argb\n000000000102030405060708\n";
    claim(&rt, goes_as(rt.alloc(), KEPT_SCRIPT, &KEPT, BLACK));
    claim(&rt, goes_as(rt.alloc(), PAINTED_SCRIPT, &PAINTED, painted));
}

//! Choosers of paints that name no kind.
use crate::claiming::claim;
use crate::examples::{has_come_to, nobody, run_by, run_on};
use gfx_base::NoMemory;
use gfx_chooser::{ByArea, ByColours, Chooser, Once};
use gfx_script::Kind;
use gfxpipe::Status;
use std::alloc::Global;

/// Three paints that name no kind.
const THREE_SCRIPT: &str =
    r#"picture = [{ name = "two", width = 2, height = 1, pattern = "hex", pixels = "0000ffff00ff00ff" }]
step = [
    { do = "surface", id = 1, width = 2, height = 1 },
    { do = "paint", id = 1, picture = "two", at = [0, 0] },
    { do = "paint", id = 1, picture = "two", at = [0, 0], kind = "auto" },
    { do = "paint", id = 1, picture = "two", at = [0, 0], kind = "auto" },
    { do = "frame" },
]"#;

/// Their stream where they go raw, by bands and by runs, as a reference implementation writes it.
const THREE: [u8; 216] = [
    0x12, 0, 0, 0, 0xe0, 4, 0xb, 0, 0, 0, 0x10, 0, 0, 0, 0, 0, 0, 0, 1, 0, 0, 0, 0x11, 0, 0, 0,
    0xe0, 4, 9, 0, 0, 0, 0xf, 0, 0, 0, 1, 0, 2, 0, 1, 0, 0x20,
    // Raw: two pixels of four bytes.
    0x23, 0, 0, 0, 0xe0, 4, 1, 0, 0, 0, 0x21, 0, 0, 0, 1, 0, 0, 0, 0x20, 0, 0, 0, 0, 2, 0, 1, 0, 8,
    0, 0, 0, 0, 0, 0xff, 0xff, 0, 0xff, 0, 0xff,
    // A band of two columns.
    0x3b, 0, 0, 0, 0xe0, 4, 1, 0, 0, 0, 0x39, 0, 0, 0, 1, 0, 8, 0, 0x20, 0, 0, 0, 0, 2, 0, 1, 0,
    0x20, 0, 0, 0, 0, 0, 0, 0, 0, 0, 0x12, 0, 0, 0, 0, 0, 0, 0, 0, 0, 1, 0, 0, 0, 0, 0, 0, 0, 0xff,
    0, 0, 0, 1, 0, 0xff, 0,
    // Two runs of one pixel.
    0x31, 0, 0, 0, 0xe0, 4, 1, 0, 0, 0, 0x2f, 0, 0, 0, 1, 0, 8, 0, 0x20, 0, 0, 0, 0, 2, 0, 1, 0,
    0x16, 0, 0, 0, 0, 1, 8, 0, 0, 0, 0, 0, 0, 0, 0, 0, 0, 0, 0, 0, 0xff, 1, 0, 0xff, 0, 1, 0xe, 0,
    0, 0, 0xe0, 4, 0xc, 0, 0, 0, 0xc, 0, 0, 0, 1, 0, 0, 0,
];

/// A picture of one colour, one of noise, and a smaller one of noise: they go by a palette, in passes and as runs.
const SIZES_SCRIPT: &str = r#"picture = [
    { name = "one", width = 128, height = 128, pattern = "solid", colour = "112233ff" },
    { name = "large", width = 128, height = 128, pattern = "noise", seed = 1 },
    { name = "small", width = 64, height = 64, pattern = "noise", seed = 1 },
]
step = [
    { do = "surface", id = 1, width = 128, height = 128 },
    { do = "paint", id = 1, picture = "one", at = [0, 0] },
    { do = "paint", id = 1, picture = "large", at = [0, 0], kind = "auto" },
    { do = "paint", id = 1, picture = "small", at = [0, 0], kind = "auto" },
    { do = "frame" },
]"#;

/// Where its paints stand in its stream, as a reference implementation writes it, and how each begins: the whole of the
/// first is here.
const SIZES: [(usize, &[u8]); 3] = [
    // ClearCodec with a subcodec's data alone: a palette of one colour, and a run of 16,384 pixels.
    (
        43,
        &[
            0x3e, 0, 0, 0, 0xe0, 4, 1, 0, 0, 0, 0x3c, 0, 0, 0, 1, 0, 8, 0, 0x20, 0, 0, 0, 0, 0x80,
            0, 0x80, 0, 0x23, 0, 0, 0, 0, 0, 0, 0, 0, 0, 0, 0, 0, 0, 0x15, 0, 0, 0, 0, 0, 0, 0,
            0x80, 0, 0x80, 0, 8, 0, 0, 0, 2, 1, 0x11, 0x22, 0x33, 0, 0xff, 0xff, 0x3f,
        ],
    ),
    // WireToSurface2 of Progressive.
    (
        109,
        &[
            0xbd, 0x33, 0, 0, 0xe0, 4, 2, 0, 0, 0, 0xbb, 0x33, 0, 0, 1, 0, 9, 0, 1, 0, 0, 0, 0x20,
            0xa6, 0x33, 0, 0, 0xc0,
        ],
    ),
    // ClearCodec with a residual layer alone, of 16,384 bytes.
    (
        13358,
        &[
            0x29, 0x40, 0, 0, 0xe0, 4, 1, 0, 0, 0, 0x27, 0x40, 0, 0, 1, 0, 8, 0, 0x20, 0, 0, 0, 0,
            0x40, 0, 0x40, 0, 0xe, 0x40, 0, 0, 0, 1, 0, 0x40, 0, 0, 0, 0, 0, 0, 0, 0, 0, 0, 0xc2,
            0xb2,
        ],
    ),
];

/// A paint that names no kind stands in the second of two frames.
const SECOND_SCRIPT: &str =
    r#"picture = [{ name = "two", width = 2, height = 1, pattern = "hex", pixels = "0000ffff00ff00ff" }]
step = [
    { do = "surface", id = 1, width = 2, height = 1 },
    { do = "fill", id = 1, colour = "0000ff00", rects = [[0, 0, 2, 1]] },
    { do = "frame" },
    { do = "paint", id = 1, picture = "two", at = [0, 0] },
    { do = "frame" },
]"#;

/// The room of these outputs.
const ROOM: usize = 65_536;

/// Whether these two kinds are sent, and no chooser is left then.
fn answer_once(alloc: Global, choosers: &mut Vec<Once>) -> Result<bool, NoMemory> {
    for kind in &[Kind::Raw, Kind::Bands] {
        choosers.push(Once {
            kind: *kind,
            left: true,
        })?;
    }
    let script = THREE_SCRIPT.as_bytes();
    let ran = run_by(alloc, &["encode"], choosers, ROOM, script, &[], &[])?;
    Ok(has_come_to(&ran, Status::Done, &THREE, "") && choosers.is_empty())
}

#[test]
fn each_answers_once(rt: HostRuntime) {
    let mut choosers = nobody(rt.alloc());
    let right = answer_once(rt.alloc(), &mut choosers);
    drop(choosers);
    claim(&rt, right);
}

/// Choosers that are asked for several paints.
type Choosers = Vec<Box<dyn Chooser>>;

/// Puts a chooser by colours and one by area behind others.
fn push_both(alloc: Global, choosers: &mut Choosers) -> Result<(), NoMemory> {
    choosers.push(Box::new(alloc, ByColours { most: 16 })?)?;
    choosers.push(Box::new(alloc, ByArea { least: 16_384 })?)?;
    Ok(())
}

/// Whether a stream has each paint where it is due.
fn has_paints(stream: &[u8]) -> bool {
    for (at, data) in &SIZES {
        let stands = match stream.get(*at..) {
            Some(rest) => rest.starts_with(data),
            None => false,
        };
        if !stands {
            return false;
        }
    }
    stream.len() == 29_805
}

/// Whether they choose as is due, and both are left.
fn choose(alloc: Global, choosers: &mut Choosers) -> Result<bool, NoMemory> {
    push_both(alloc, choosers)?;
    let script = SIZES_SCRIPT.as_bytes();
    let ran = run_by(alloc, &["encode"], choosers, ROOM, script, &[], &[])?;
    Ok(ran.status == Status::Done && has_paints(ran.out.held()) && choosers.len() == 2)
}

#[test]
fn few_colours_and_large_areas(rt: HostRuntime) {
    let mut choosers: Choosers = Vec::new(rt.alloc());
    let right = choose(rt.alloc(), &mut choosers);
    drop(choosers);
    claim(&rt, right);
}

/// Whether a chooser is left where the first frame can't be written.
fn is_left(alloc: Global, choosers: &mut Vec<Once>) -> Result<bool, NoMemory> {
    choosers.push(Once {
        kind: Kind::Raw,
        left: true,
    })?;
    let script = SECOND_SCRIPT.as_bytes();
    let ran = run_by(alloc, &["encode"], choosers, ROOM, script, &[], &[1])?;
    Ok(ran.status == Status::WriteFault && choosers.len() == 1)
}

#[test]
fn a_frame_that_is_not_planned_asks_nobody(rt: HostRuntime) {
    let mut choosers = nobody(rt.alloc());
    let right = is_left(rt.alloc(), &mut choosers);
    drop(choosers);
    claim(&rt, right);
}

/// Whether an audit of a stream is done and ends with this line.
fn tells(alloc: Global, stream: &[u8], line: &str) -> Result<bool, NoMemory> {
    let told = run_on(alloc, &["audit"], stream, &[], &[])?;
    Ok(told.status == Status::Done && told.out.held().ends_with(line.as_bytes()))
}

/// The same of the stream of a script whose paint goes as this kind.
fn is_told(
    alloc: Global,
    choosers: &mut Vec<Once>,
    kind: Kind,
    line: &str,
) -> Result<bool, NoMemory> {
    choosers.push(Once { kind, left: true })?;
    let script = SECOND_SCRIPT.as_bytes();
    let sent = run_by(alloc, &["encode"], choosers, ROOM, script, &[], &[])?;
    tells(alloc, sent.out.held(), line)
}

/// The same with a new list of choosers.
fn tells_chosen(alloc: Global, kind: Kind, line: &str) -> Result<bool, NoMemory> {
    let mut choosers = nobody(alloc);
    is_told(alloc, &mut choosers, kind, line)
}

/// A paint in passes leaves a tile, a raw one none.
#[test]
fn an_audit_tells_what_was_chosen(rt: HostRuntime) {
    claim(&rt, tells_chosen(rt.alloc(), Kind::Raw, "tiles 0\n"));
    claim(
        &rt,
        tells_chosen(rt.alloc(), Kind::Progressive, "tiles 1\n"),
    );
}

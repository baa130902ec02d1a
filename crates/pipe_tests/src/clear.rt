//! Paints by ClearCodec, through every command: worked examples, and a session in which a paint is left out that
//! would have changed what the client holds.
use crate::claiming::claim;
use crate::examples::{FILL, RED, answers, has_at};
use gfx_base::NoMemory;
use gfxpipe::Status;
use std::alloc::Global;

/// One red pixel, as a run.
const RESIDUAL_SCRIPT: &str =
    r#"picture = [{ name = "red", width = 1, height = 1, pattern = "solid", colour = "0000ffff" }]
step = [
    { do = "surface", id = 1, width = 2, height = 1 },
    { do = "paint", id = 1, picture = "red", at = [1, 0], kind = "residual" },
    { do = "frame" },
]"#;

/// White above black, twice: the second is one hit on what the first has stored.
const BANDS_SCRIPT: &str =
    r#"picture = [{ name = "step", width = 1, height = 2, pattern = "hex", pixels = "ffffffff000000ff" }]
step = [
    { do = "surface", id = 1, width = 1, height = 2 },
    { do = "paint", id = 1, picture = "step", at = [0, 0], kind = "bands" },
    { do = "paint", id = 1, picture = "step", at = [0, 0], kind = "bands" },
    { do = "frame" },
]"#;

/// The turned picture waits with the last one, which covers it: it is left out, and stores no bar.
const LEFT_OUT_SCRIPT: &str = r#"window = 1
picture = [
    { name = "step", width = 1, height = 2, pattern = "hex", pixels = "ffffffff000000ff" },
    { name = "turned", width = 1, height = 2, pattern = "hex", pixels = "000000ffffffff40" },
]
step = [
    { do = "surface", id = 1, width = 1, height = 2 },
    { do = "frame" },
    { do = "paint", id = 1, picture = "step", at = [0, 0], kind = "bands" },
    { do = "frame" },
    { do = "paint", id = 1, picture = "turned", at = [0, 0], kind = "bands" },
    { do = "frame" },
    { do = "paint", id = 1, picture = "step", at = [0, 0], kind = "bands", glyph = 7 },
    { do = "frame" },
]
turn = [
    { end = "answer", take = 26 },
    { end = "server" },
    { end = "server" },
    { end = "server" },
]"#;

/// A glyph of one pixel more than a glyph may have.
const WIDE_GLYPH_SCRIPT: &str =
    r#"picture = [{ name = "wide", width = 41, height = 25, pattern = "text" }]
step = [
    { do = "surface", id = 1, width = 41, height = 25 },
    { do = "paint", id = 1, picture = "wide", at = [0, 0], kind = "plain", glyph = 7 },
    { do = "frame" },
]"#;

/// A script, and what a command makes of it, as a reference implementation does.
struct Case {
    word: &'static str,
    script: &'static str,
    status: Status,
    out: &'static str,
    err: &'static str,
}

const CASES: [Case; 3] = [
    Case {
        word: "session",
        script: BANDS_SCRIPT,
        status: Status::Done,
        out: "ack 1 step 4 client bf617a038f00fcbee429a7ca14621f6642580a83bd2dbf14e320b131547693da server bf617a038f00fcbee429a7ca14621f6642580a83bd2dbf14e320b131547693da\n",
        err: "",
    },
    Case {
        word: "session",
        script: LEFT_OUT_SCRIPT,
        status: Status::Done,
        out: "ack 1 step 2 client 1890a07ac6d82656652650b2c5d2c725746bf1e301450b27551a62ae502f8225 server 1890a07ac6d82656652650b2c5d2c725746bf1e301450b27551a62ae502f8225\n\
            ack 2 step 8 client 9b62b0c7246b593f6c02a45d161966ceb038d8667054dd3096fc459fb042a639 server 9b62b0c7246b593f6c02a45d161966ceb038d8667054dd3096fc459fb042a639\n",
        err: "",
    },
    Case {
        word: "encode",
        script: WIDE_GLYPH_SCRIPT,
        status: Status::Refused,
        out: "",
        err: "script: step 2: Glyph\n",
    },
];

/// Whether each script is answered so.
fn all_are_answered(alloc: Global) -> Result<bool, NoMemory> {
    for case in &CASES {
        let (script, out) = (case.script.as_bytes(), case.out.as_bytes());
        if !answers(alloc, &[case.word], script, case.status, out, case.err)? {
            return Ok(false);
        }
    }
    Ok(true)
}

#[test]
fn scripts_and_their_answers(rt: HostRuntime) {
    claim(&rt, all_are_answered(rt.alloc()));
}

/// Scripts, and data of their paints at their places in the streams.
const DATA: [(&str, usize, &[u8]); 3] = [
    (
        RESIDUAL_SCRIPT,
        74,
        &[0, 0, 4, 0, 0, 0, 0, 0, 0, 0, 0, 0, 0, 0, 0, 0, 0xff, 1],
    ),
    (
        BANDS_SCRIPT,
        88,
        &[0, 0, 0, 0, 0, 0, 1, 0, 0xff, 0xff, 0xff, 1, 2, 0, 0, 0],
    ),
    (
        BANDS_SCRIPT,
        149,
        &[0, 0, 0, 0, 0, 0, 1, 0, 0xff, 0xff, 0xff, 0, 0x80],
    ),
];

/// Whether all data stand there.
fn all_data_stand(alloc: Global) -> Result<bool, NoMemory> {
    for (script, at, data) in &DATA {
        if !has_at(alloc, script, *at, data)? {
            return Ok(false);
        }
    }
    Ok(true)
}

#[test]
fn streams_of_scripts(rt: HostRuntime) {
    claim(&rt, all_data_stand(rt.alloc()));
}

/// A run of three pixels for a rectangle of two.
const LONG_RUN: [u8; 49] = [
    0x2d, 0, 0, 0, 0xe0, 4, 1, 0, 0, 0, 0x2b, 0, 0, 0, 1, 0, 8, 0, 0x20, 0, 0, 0, 0, 2, 0, 1, 0,
    0x12, 0, 0, 0, 0, 0, 4, 0, 0, 0, 0, 0, 0, 0, 0, 0, 0, 0, 0, 0, 0xff, 3,
];

/// The red surface, and that run behind it.
fn with_long_run(alloc: Global) -> Result<Vec<u8>, NoMemory> {
    let mut bytes = Vec::new(alloc);
    bytes.extend_from_slice(&FILL[..73])?;
    bytes.extend_from_slice(&LONG_RUN)?;
    Ok(bytes)
}

/// Whether it is refused, and the surface is red.
fn long_run_is_refused(alloc: Global) -> Result<bool, NoMemory> {
    let bytes = with_long_run(alloc)?;
    let (refused, line) = (Status::Refused, "message 4: 27 RunTotal\n");
    answers(alloc, &["render"], &bytes, refused, RED.as_bytes(), line)
}

/// A run of three pixels for a rectangle of two is refused, and what was drawn before stays.
#[test]
fn a_refused_stream_leaves_the_paint_before(rt: HostRuntime) {
    claim(&rt, long_run_is_refused(rt.alloc()));
}

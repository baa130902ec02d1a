//! The command `encode`: scripts and their streams, and reads and writes that fail.
use crate::claiming::claim;
use crate::examples::{FILL, FILL_SCRIPT, answers, has_begun, has_come_to, run_on, write_fails};
use gfx_base::NoMemory;
use gfxpipe::Status;
use std::alloc::Global;

/// The same with a fill of three columns.
const OUTSIDE_SCRIPT: &str = r#"step = [
    { do = "surface", id = 1, width = 2, height = 1 },
    { do = "fill", id = 1, colour = "0000ff00", rects = [[0, 0, 3, 1]] },
    { do = "frame" },
]"#;

/// No script is longer, in bytes.
const LONGEST_SCRIPT: usize = 67_108_864;

/// Scripts, how `encode` ends with them, their streams, and what is said.
const SCRIPTS: [(&str, Status, &[u8], &str); 5] = [
    (FILL_SCRIPT, Status::Done, &FILL, ""),
    ("", Status::Done, &[], ""),
    (
        OUTSIDE_SCRIPT,
        Status::Refused,
        &[],
        "script: step 2: Outside\n",
    ),
    (
        "step = [{ do = \"surface\", id = 1, width = 2, height = 1 }]",
        Status::Refused,
        &[],
        "script: Unframed\n",
    ),
    ("step = [", Status::Refused, &[], "script: Toml\n"),
];

/// Whether each script is answered so.
fn all_are_answered(alloc: Global) -> Result<bool, NoMemory> {
    for (script, status, stream, line) in &SCRIPTS {
        if !answers(alloc, &["encode"], script.as_bytes(), *status, stream, line)? {
            return Ok(false);
        }
    }
    Ok(true)
}

#[test]
fn scripts_and_their_streams(rt: HostRuntime) {
    claim(&rt, all_are_answered(rt.alloc()));
}

/// Spaces, a few more than a script may have.
fn spaces(alloc: Global) -> Result<Vec<u8>, NoMemory> {
    let mut spaces = Vec::new(alloc);
    spaces.resize(LONGEST_SCRIPT + 9, b' ')?;
    Ok(spaces)
}

/// Whether they are refused where one too many is read.
fn is_too_long(alloc: Global) -> Result<bool, NoMemory> {
    let spaces = spaces(alloc)?;
    let ran = run_on(alloc, &["encode"], &spaces, &[], &[])?;
    let refused = has_come_to(&ran, Status::Refused, &[], "input: TooLong\n");
    Ok(refused && ran.input.left().len() == 8)
}

#[test]
fn a_script_is_read_up_to_its_limit(rt: HostRuntime) {
    claim(&rt, is_too_long(rt.alloc()));
}

/// A read and a write that fail, how `encode` ends, how many bytes it writes, and what it says.
const FAILING: [(u64, u64, Status, usize, &str); 4] = [
    (1, 9, Status::ReadFault, 0, "input: read failed\n"),
    (2, 9, Status::ReadFault, 0, "input: read failed\n"),
    (9, 1, Status::WriteFault, 0, "output: write failed\n"),
    (3, 2, Status::Done, 91, ""),
];

/// Whether `encode` ends so where this read and this write fail.
fn ends_so(
    alloc: Global,
    read: u64,
    write: u64,
    status: Status,
    length: usize,
    line: &str,
) -> Result<bool, NoMemory> {
    let (reads, writes) = ([read], [write]);
    let script = FILL_SCRIPT.as_bytes();
    let ran = run_on(alloc, &["encode"], script, &reads, &writes)?;
    Ok(has_begun(&ran, status, &FILL, length, line))
}

/// Whether each ends so.
fn all_end_so(alloc: Global) -> Result<bool, NoMemory> {
    for (read, write, status, length, line) in &FAILING {
        if !ends_so(alloc, *read, *write, *status, *length, line)? {
            return Ok(false);
        }
    }
    Ok(true)
}

/// The script is one read, and its end another. Its one frame is one write.
#[test]
fn each_read_and_write_of_encode_fails(rt: HostRuntime) {
    claim(&rt, all_end_so(rt.alloc()));
}

const FRAMES_SCRIPT: &str = "step = [{ do = \"frame\" }, { do = \"frame\" }, { do = \"frame\" }]";

/// Its stream: StartFrame and EndFrame, three times.
const FRAMES: [u8; 120] = [
    0x12, 0, 0, 0, 0xe0, 4, 0xb, 0, 0, 0, 0x10, 0, 0, 0, 0, 0, 0, 0, 1, 0, 0, 0, 0xe, 0, 0, 0,
    0xe0, 4, 0xc, 0, 0, 0, 0xc, 0, 0, 0, 1, 0, 0, 0, 0x12, 0, 0, 0, 0xe0, 4, 0xb, 0, 0, 0, 0x10, 0,
    0, 0, 0, 0, 0, 0, 2, 0, 0, 0, 0xe, 0, 0, 0, 0xe0, 4, 0xc, 0, 0, 0, 0xc, 0, 0, 0, 2, 0, 0, 0,
    0x12, 0, 0, 0, 0xe0, 4, 0xb, 0, 0, 0, 0x10, 0, 0, 0, 0, 0, 0, 0, 3, 0, 0, 0, 0xe, 0, 0, 0,
    0xe0, 4, 0xc, 0, 0, 0, 0xc, 0, 0, 0, 3, 0, 0, 0,
];

/// Writes that fail, and how many bytes are written before.
const WRITES: [(u64, usize); 3] = [(1, 0), (2, 40), (3, 80)];

/// Whether each write that fails leaves so many bytes.
fn writes_fail(alloc: Global) -> Result<bool, NoMemory> {
    let script = FRAMES_SCRIPT.as_bytes();
    for (write, length) in &WRITES {
        if !write_fails(alloc, &["encode"], script, *write, &FRAMES, *length)? {
            return Ok(false);
        }
    }
    Ok(true)
}

/// Each frame is written before the next is planned: what stands before a failed write is whole.
#[test]
fn frames_are_written_one_by_one(rt: HostRuntime) {
    claim(&rt, writes_fail(rt.alloc()));
}

//! The command `audit`: a line for each message that is applied, and then what the messages leave.
use crate::claiming::claim;
use crate::examples::{FILL, answers, has_begun, run_on, write_fails};
use gfx_base::NoMemory;
use gfxpipe::Status;
use std::alloc::Global;

/// The lines of the messages of one red surface.
const FILL_LINES: &str = "1 StartFrame 16\n2 CreateSurface 15\n3 SolidFill 24\n4 EndFrame 12\n";

/// The end of an audit where nothing is held.
const NOTHING: &str = "slots 0\n\
    bars 0 0 e3b0c44298fc1c149afbf4c8996fb92427ae41e4649b934ca495991b7852b855\n\
    shorts 0 0 e3b0c44298fc1c149afbf4c8996fb92427ae41e4649b934ca495991b7852b855\n\
    glyphs 0 e3b0c44298fc1c149afbf4c8996fb92427ae41e4649b934ca495991b7852b855\n\
    tiles 0\n";

/// One channel message of StartFrame 1 and EndFrame 2.
const TWO: [u8; 34] = [
    0x1e, 0, 0, 0, 0xe0, 4, 0xb, 0, 0, 0, 0x10, 0, 0, 0, 0, 0, 0, 0, 1, 0, 0, 0, 0xc, 0, 0, 0, 0xc,
    0, 0, 0, 2, 0, 0, 0,
];

/// A bar, a short and a glyph are stored, a bitmap is kept, and a tile is painted.
const HELD_SCRIPT: &str =
    r#"picture = [{ name = "step", width = 1, height = 2, pattern = "hex", pixels = "ffffffff000000ff" }]
step = [
    { do = "surface", id = 1, width = 1, height = 2 },
    { do = "paint", id = 1, picture = "step", at = [0, 0], kind = "bands", glyph = 7 },
    { do = "keep", id = 1, key = 5, rect = [0, 0, 1, 2] },
    { do = "paint", id = 1, picture = "step", at = [0, 0], kind = "progressive" },
    { do = "frame" },
]"#;

/// The audit of its stream, as a reference implementation writes it.
const HELD: &str = "1 StartFrame 16\n\
    2 CreateSurface 15\n\
    3 WireToSurface1 57\n\
    4 SurfaceToCache 28\n\
    5 WireToSurface2 214\n\
    6 EndFrame 12\n\
    slots 1\n\
    slot 1 1x2 0000000000000005 c9fa5b8296e4465091d7112f785f5909b7201afda9b98c3fffae87244919f114\n\
    bars 1 1 7e51f8948de70502c2a609dfcb676776376c64e50e724b9dc10b5c57acd49ea8\n\
    shorts 1 1 025fc246f13759c192cbbae2a68f2b59b6478f21b31a05d77483a87e417906dd\n\
    glyphs 1 ae7b99aac3fd63270c959141f039283417d89b740a631633c89e1f9f0a4adca9\n\
    tiles 1\n";

/// An audit of these lines where nothing is held.
fn audit_of(alloc: Global, lines: &str) -> Result<Vec<u8>, NoMemory> {
    let mut text = Vec::new(alloc);
    text.extend_from_slice(lines.as_bytes())?;
    text.extend_from_slice(NOTHING.as_bytes())?;
    Ok(text)
}

/// Whether an audit of these bytes ends so, with these lines where nothing is held, and says this.
fn tells(
    alloc: Global,
    bytes: &[u8],
    status: Status,
    lines: &str,
    line: &str,
) -> Result<bool, NoMemory> {
    let text = audit_of(alloc, lines)?;
    answers(alloc, &["audit"], bytes, status, text.as_slice(), line)
}

/// Whether audits of whole streams have a line for each message.
fn whole_are_told(alloc: Global) -> Result<bool, NoMemory> {
    Ok(
        tells(alloc, &[], Status::Done, "", "")?
            && tells(alloc, &FILL, Status::Done, FILL_LINES, "")?,
    )
}

/// Whether audits of streams that are refused have a line for each message before that.
fn refused_are_told(alloc: Global) -> Result<bool, NoMemory> {
    let (cut, _) = FILL.split_at(60);
    let (_, unopened) = FILL.split_at(22);
    let refused = Status::Refused;
    let cut_lines = "1 StartFrame 16\n2 CreateSurface 15\n";
    let unopened_lines = "1 CreateSurface 15\n2 SolidFill 24\n";
    let truncated = "message 3: 1 ChannelTruncated\n";
    let third = "message 3: 22 FrameMismatch\n";
    let second = "message 2: 22 FrameMismatch\n";
    Ok(
        tells(alloc, cut, refused, cut_lines, truncated)?
            && tells(alloc, unopened, refused, unopened_lines, third)?
            && tells(alloc, &TWO, refused, "1 StartFrame 16\n", second)?,
    )
}

/// What is refused has no line, and the end comes all the same.
#[test]
fn what_is_applied_has_a_line(rt: HostRuntime) {
    claim(&rt, whole_are_told(rt.alloc()));
    claim(&rt, refused_are_told(rt.alloc()));
}

/// Bytes, and others behind them.
fn with_behind(alloc: Global, bytes: &[u8], behind: &[u8]) -> Result<Vec<u8>, NoMemory> {
    let mut all = Vec::new(alloc);
    all.extend_from_slice(bytes)?;
    all.extend_from_slice(behind)?;
    Ok(all)
}

/// Whether an audit of a stream and of bytes behind it ends so, tells what the stream leaves, and says this.
fn tells_held(
    alloc: Global,
    stream: &[u8],
    behind: &[u8],
    status: Status,
    line: &str,
) -> Result<bool, NoMemory> {
    let bytes = with_behind(alloc, stream, behind)?;
    answers(
        alloc,
        &["audit"],
        bytes.as_slice(),
        status,
        HELD.as_bytes(),
        line,
    )
}

/// Whether both audits of a stream tell what it leaves.
fn both_tell_held(alloc: Global, stream: &[u8]) -> Result<bool, NoMemory> {
    let line = "message 7: 1 ChannelTruncated\n";
    Ok(
        tells_held(alloc, stream, &[], Status::Done, "")?
            && tells_held(alloc, stream, &[0], Status::Refused, line)?,
    )
}

/// The same of the stream of a script.
fn held_is_told(alloc: Global) -> Result<bool, NoMemory> {
    let encoded = run_on(alloc, &["encode"], HELD_SCRIPT.as_bytes(), &[], &[])?;
    both_tell_held(alloc, encoded.out.held())
}

/// The end is that of what was applied, also where a byte behind the stream is no whole message.
#[test]
fn what_is_held_is_told(rt: HostRuntime) {
    claim(&rt, held_is_told(rt.alloc()));
}

/// A read that fails, how the audit ends, how many bytes it prints, what it says, and how many bytes are left.
const READS: [(u64, Status, usize, &str, usize); 3] = [
    (1, Status::ReadFault, 0, "input: read failed\n", 91),
    (2, Status::ReadFault, 64, "input: read failed\n", 0),
    (3, Status::Done, 304, "", 0),
];

/// Whether each read that fails ends so, where this is printed if none does.
fn reads_fail(alloc: Global, text: &[u8]) -> Result<bool, NoMemory> {
    for (read, status, length, line, left) in &READS {
        let reads = [*read];
        let ran = run_on(alloc, &["audit"], &FILL, &reads, &[])?;
        let begun = has_begun(&ran, *status, text, *length, line);
        if !begun || ran.input.left().len() != *left {
            return Ok(false);
        }
    }
    Ok(true)
}

/// The same of the audit of one red surface.
fn reads_of_fill_fail(alloc: Global) -> Result<bool, NoMemory> {
    let text = audit_of(alloc, FILL_LINES)?;
    reads_fail(alloc, text.as_slice())
}

/// The stream is one read, and its end another. The lines of what was read before are out.
#[test]
fn each_read_of_audit_fails(rt: HostRuntime) {
    claim(&rt, reads_of_fill_fail(rt.alloc()));
}

/// Whether each write that fails has printed so many bytes of these.
fn writes_fail(
    alloc: Global,
    bytes: &[u8],
    text: &[u8],
    writes: &[(u64, usize)],
) -> Result<bool, NoMemory> {
    for (write, length) in writes {
        if !write_fails(alloc, &["audit"], bytes, *write, text, *length)? {
            return Ok(false);
        }
    }
    Ok(true)
}

/// Writes that fail, and how many bytes are printed before.
const WRITES: [(u64, usize); 9] = [
    (1, 0),
    (2, 16),
    (3, 35),
    (4, 50),
    (5, 64),
    (6, 72),
    (7, 146),
    (8, 222),
    (9, 296),
];

/// Whether each write of the audit of one red surface fails so.
fn writes_of_fill_fail(alloc: Global) -> Result<bool, NoMemory> {
    let text = audit_of(alloc, FILL_LINES)?;
    writes_fail(alloc, &FILL, text.as_slice(), &WRITES)
}

/// Each line is one write: what stands before a failed one is whole.
#[test]
fn each_write_of_audit_fails(rt: HostRuntime) {
    claim(&rt, writes_of_fill_fail(rt.alloc()));
}

/// The same of no messages.
const EMPTY_WRITES: [(u64, usize); 5] = [(1, 0), (2, 8), (3, 82), (4, 158), (5, 232)];

/// So of no messages.
#[test]
fn each_write_of_an_empty_audit_fails(rt: HostRuntime) {
    let fail = writes_fail(rt.alloc(), &[], NOTHING.as_bytes(), &EMPTY_WRITES);
    claim(&rt, fail);
}

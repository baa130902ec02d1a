//! Streams and scripts that several tests use, and how they are run.
use gfx_base::{NoMemory, SliceSource, VecSink};
use gfx_chooser::{Chooser, Once};
use gfxpipe::{Status, run};
use std::alloc::Global;

/// One red surface in one frame.
pub const FILL: [u8; 91] = [
    // StartFrame 1.
    0x12, 0, 0, 0, 0xe0, 4, 0xb, 0, 0, 0, 0x10, 0, 0, 0, 0, 0, 0, 0, 1, 0, 0, 0,
    // CreateSurface 1 of 2 by 1, XRGB.
    0x11, 0, 0, 0, 0xe0, 4, 9, 0, 0, 0, 0xf, 0, 0, 0, 1, 0, 2, 0, 1, 0, 0x20,
    // SolidFill of all of it in red.
    0x1a, 0, 0, 0, 0xe0, 4, 4, 0, 0, 0, 0x18, 0, 0, 0, 1, 0, 0, 0, 0xff, 0, 1, 0, 0, 0, 0, 0, 2, 0,
    1, 0,
    // EndFrame 1.
    0xe, 0, 0, 0, 0xe0, 4, 0xc, 0, 0, 0, 0xc, 0, 0, 0, 1, 0, 0, 0,
];

/// The script of that stream.
pub const FILL_SCRIPT: &str = r#"step = [
    { do = "surface", id = 1, width = 2, height = 1 },
    { do = "fill", id = 1, colour = "0000ff00", rects = [[0, 0, 2, 1]] },
    { do = "frame" },
]"#;

/// Two black pixels.
pub const BLACK: &str = "surface 1 2x1 xrgb\n000000ff000000ff\n";

/// Two red pixels.
pub const RED: &str = "surface 1 2x1 xrgb\n0000ffff0000ffff\n";

/// What a run has come to.
#[derive(Drop)]
pub struct Ran<'a> {
    pub status: Status,
    pub input: SliceSource<'a>,
    pub out: VecSink<'a>,
    pub err: VecSink<'a>,
}

/// The room of an output, where nothing else is said.
const ROOM: usize = 8192;

/// No choosers.
pub(crate) fn nobody(alloc: Global) -> Vec<Once> {
    Vec::new(alloc)
}

/// Runs a command on these bytes, with no choosers. The reads and the writes to `out` of these numbers fail.
pub(crate) fn run_on<'a>(
    alloc: Global,
    words: &[&str],
    bytes: &'a [u8],
    reads: &'a [u64],
    writes: &'a [u64],
) -> Result<Ran<'a>, NoMemory> {
    run_by(alloc, words, &mut nobody(alloc), ROOM, bytes, reads, writes)
}

/// Runs a command on these bytes, with these choosers and so much room for its output. The reads and the writes to
/// `out` of these numbers fail.
pub(crate) fn run_by<'a, C: Chooser>(
    alloc: Global,
    words: &[&str],
    choosers: &mut Vec<C>,
    room: usize,
    bytes: &'a [u8],
    reads: &'a [u64],
    writes: &'a [u64],
) -> Result<Ran<'a>, NoMemory> {
    let mut input = SliceSource::new(bytes, reads);
    let mut out = VecSink::new(alloc, room, writes)?;
    let mut err = VecSink::new(alloc, 128, &[])?;
    let status = run(alloc, words, choosers, &mut input, &mut out, &mut err).into_status();
    Ok(Ran {
        status,
        input,
        out,
        err,
    })
}

/// Whether a run has ended so, printed this and said this.
pub(crate) fn has_come_to(ran: &Ran<'_>, status: Status, out: &[u8], err: &str) -> bool {
    ran.status == status && ran.out.held() == out && ran.err.held() == err.as_bytes()
}

/// Whether a run has ended so, printed the first so many bytes of these and said this.
pub(crate) fn has_begun(
    ran: &Ran<'_>,
    status: Status,
    due: &[u8],
    length: usize,
    err: &str,
) -> bool {
    let held = ran.out.held();
    ran.status == status
        && held.len() == length
        && due.starts_with(held)
        && ran.err.held() == err.as_bytes()
}

/// Whether a command on these bytes ends so, prints this and says this.
pub(crate) fn answers(
    alloc: Global,
    words: &[&str],
    bytes: &[u8],
    status: Status,
    out: &[u8],
    err: &str,
) -> Result<bool, NoMemory> {
    let ran = run_on(alloc, words, bytes, &[], &[])?;
    Ok(has_come_to(&ran, status, out, err))
}

/// Whether a command on these bytes ends so where this write fails: it has printed the first so many bytes of these.
pub(crate) fn write_fails(
    alloc: Global,
    words: &[&str],
    bytes: &[u8],
    write: u64,
    due: &[u8],
    length: usize,
) -> Result<bool, NoMemory> {
    let writes = [write];
    let ran = run_on(alloc, words, bytes, &[], &writes)?;
    let line = "output: write failed\n";
    Ok(has_begun(&ran, Status::WriteFault, due, length, line))
}

/// Whether `encode` is done with a script, and its stream has these bytes at this place.
pub(crate) fn has_at(
    alloc: Global,
    script: &str,
    at: usize,
    data: &[u8],
) -> Result<bool, NoMemory> {
    let ran = run_on(alloc, &["encode"], script.as_bytes(), &[], &[])?;
    let stands = match ran.out.held().get(at..) {
        Some(rest) => rest.starts_with(data),
        None => false,
    };
    Ok(ran.status == Status::Done && stands)
}

/// Whether `encode` is done with a script, and its stream ends with these bytes.
pub(crate) fn ends_with(alloc: Global, script: &str, end: &[u8]) -> Result<bool, NoMemory> {
    let ran = run_on(alloc, &["encode"], script.as_bytes(), &[], &[])?;
    Ok(ran.status == Status::Done && ran.out.held().ends_with(end))
}

/// Whether `encode` is done with a script, and a command on its stream is done and prints this.
pub(crate) fn prints(
    alloc: Global,
    script: &str,
    words: &[&str],
    out: &str,
) -> Result<bool, NoMemory> {
    let ran = run_on(alloc, &["encode"], script.as_bytes(), &[], &[])?;
    let stream = ran.out.held();
    let printed = answers(alloc, words, stream, Status::Done, out.as_bytes(), "");
    if ran.status == Status::Done {
        printed
    } else {
        Ok(false)
    }
}

/// Whether `render` shows this of what `encode` makes of a script.
pub(crate) fn shows(alloc: Global, script: &str, dump: &str) -> Result<bool, NoMemory> {
    prints(alloc, script, &["render"], dump)
}

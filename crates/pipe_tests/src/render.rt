//! The command `render`: worked examples, a stream that is cut, and reads and writes that fail.
use crate::claiming::claim;
use crate::examples::{BLACK, FILL, RED, answers, has_come_to, nobody, run_on, write_fails};
use gfx_base::{NoMemory, SliceSource, VecSink};
use gfxpipe::{Status, run};
use std::alloc::Global;

/// A channel message of one compressed segment.
const COMPRESSED: [u8; 6] = [2, 0, 0, 0, 0xe0, 0x24];

/// Streams, how `render` ends with them, what it shows, and what it says.
const EXAMPLES: [(&[u8], Status, &str, &str); 5] = [
    (&FILL, Status::Done, RED, ""),
    (&[], Status::Done, "", ""),
    (
        &[0x11, 0],
        Status::Refused,
        "",
        "message 1: 1 ChannelTruncated\n",
    ),
    (
        &COMPRESSED,
        Status::Refused,
        "",
        "message 1: 5 BulkCompressed\n",
    ),
    (
        &[0xd, 0, 0, 0, 0xe1, 1, 0, 2, 0, 0, 0, 2, 0, 0, 0, 4, 0],
        Status::Refused,
        "",
        "message 1: 4 SegmentSize\n",
    ),
];

/// Whether each stream is answered so.
fn all_are_answered(alloc: Global) -> Result<bool, NoMemory> {
    for (bytes, status, text, line) in &EXAMPLES {
        if !answers(alloc, &["render"], bytes, *status, text.as_bytes(), line)? {
            return Ok(false);
        }
    }
    Ok(true)
}

#[test]
fn worked_examples(rt: HostRuntime) {
    claim(&rt, all_are_answered(rt.alloc()));
}

/// What is said where the words are no command.
const USAGE: &str =
    "usage: gfxpipe encode | render [--output] | audit | session | make N | trial N | import | fragment | join\n";

/// Whether words that are no command read nothing.
fn nothing_is_read(alloc: Global) -> Result<bool, NoMemory> {
    let ran = run_on(alloc, &["render", "--wide"], &FILL, &[], &[])?;
    let told = has_come_to(&ran, Status::Usage, &[], USAGE);
    Ok(told && ran.status.number() == 2 && ran.input.left().len() == 91)
}

#[test]
fn other_words_read_nothing(rt: HostRuntime) {
    claim(&rt, nothing_is_read(rt.alloc()));
}

/// What is said where the stream is cut behind so many bytes: nothing between two messages.
fn line_of_cut(count: usize) -> &'static str {
    match count {
        0 | 22 | 43 | 73 | 91 => "",
        1..22 => "message 1: 1 ChannelTruncated\n",
        23..43 => "message 2: 1 ChannelTruncated\n",
        44..73 => "message 3: 1 ChannelTruncated\n",
        _ => "message 4: 1 ChannelTruncated\n",
    }
}

/// What is shown there.
fn text_of_cut(count: usize) -> &'static str {
    match count {
        0..43 => "",
        43..73 => BLACK,
        _ => RED,
    }
}

/// Whether the stream is answered so where it is cut behind so many bytes.
fn is_cut(alloc: Global, bytes: &[u8]) -> Result<bool, NoMemory> {
    let line = line_of_cut(bytes.len());
    let status = if line.is_empty() {
        Status::Done
    } else {
        Status::Refused
    };
    let text = text_of_cut(bytes.len()).as_bytes();
    answers(alloc, &["render"], bytes, status, text, line)
}

/// The first count of bytes behind which a cut is answered otherwise, if there is one.
fn first_wrong_cut(alloc: Global) -> Result<Option<usize>, NoMemory> {
    for count in 0..=FILL.len() {
        let (bytes, _) = FILL.split_at(count);
        if !is_cut(alloc, bytes)? {
            return Ok(Some(count));
        }
    }
    Ok(None)
}

#[test]
fn a_stream_cut_after_each_byte(rt: HostRuntime) {
    assert_eq!(rt; first_wrong_cut(rt.alloc()), Ok(None));
}

/// A read that fails, how `render` ends, what it shows and says, and how many bytes are left.
const READS: [(u64, Status, &str, &str, usize); 3] = [
    (1, Status::ReadFault, "", "input: read failed\n", 91),
    (2, Status::ReadFault, "", "input: read failed\n", 0),
    (3, Status::Done, RED, "", 0),
];

/// Whether each read that fails ends so.
fn reads_fail(alloc: Global) -> Result<bool, NoMemory> {
    for (read, status, text, line, left) in &READS {
        let reads = [*read];
        let ran = run_on(alloc, &["render"], &FILL, &reads, &[])?;
        let ended = has_come_to(&ran, *status, text.as_bytes(), line);
        if !ended || ran.input.left().len() != *left {
            return Ok(false);
        }
    }
    Ok(true)
}

/// The stream is one read, and its end another. No third read is made.
#[test]
fn each_read_fails(rt: HostRuntime) {
    claim(&rt, reads_fail(rt.alloc()));
}

/// Writes that fail, and how many bytes are printed before.
const WRITES: [(u64, usize); 3] = [(1, 0), (2, 19), (3, 35)];

/// Whether each write that fails ends so.
fn writes_fail(alloc: Global) -> Result<bool, NoMemory> {
    for (write, length) in &WRITES {
        if !write_fails(alloc, &["render"], &FILL, *write, RED.as_bytes(), *length)? {
            return Ok(false);
        }
    }
    Ok(true)
}

/// Whether a fourth write isn't made.
fn no_fourth_is_made(alloc: Global) -> Result<bool, NoMemory> {
    let ran = run_on(alloc, &["render"], &FILL, &[], &[4])?;
    Ok(has_come_to(&ran, Status::Done, RED.as_bytes(), ""))
}

/// The dump is three writes: its header, the digits of its row and their newline.
#[test]
fn each_write_fails(rt: HostRuntime) {
    claim(&rt, writes_fail(rt.alloc()));
    claim(&rt, no_fourth_is_made(rt.alloc()));
}

/// Whether a line that can't be written is no text, and the status says so.
fn line_is_lost(alloc: Global) -> Result<bool, NoMemory> {
    let mut input = SliceSource::new(&[0x11, 0], &[]);
    let mut out = VecSink::new(alloc, 64, &[])?;
    let mut err = VecSink::new(alloc, 64, &[1])?;
    let status = run(
        alloc,
        &["render"],
        &mut nobody(alloc),
        &mut input,
        &mut out,
        &mut err,
    )
    .into_status();
    Ok(status == Status::WriteFault && err.held().is_empty())
}

#[test]
fn a_line_that_cannot_be_written(rt: HostRuntime) {
    claim(&rt, line_is_lost(rt.alloc()));
}

/// What is refused, and 200,000 bytes behind it.
fn long_refused(alloc: Global) -> Result<Vec<u8>, NoMemory> {
    let mut bytes = COMPRESSED.to_vec(alloc)?;
    bytes.resize(COMPRESSED.len() + 200_000, 0)?;
    Ok(bytes)
}

/// Whether it is answered with most of it left.
fn is_left(alloc: Global) -> Result<bool, NoMemory> {
    let bytes = long_refused(alloc)?;
    let ran = run_on(alloc, &["render"], &bytes, &[], &[])?;
    let line = "message 1: 5 BulkCompressed\n";
    let refused = has_come_to(&ran, Status::Refused, &[], line);
    Ok(refused && ran.input.left().len() >= 134_465)
}

/// What is refused in the first piece is answered without a second: of 200,006 bytes at most one
/// piece of 65,536 and one byte are read.
#[test]
fn a_refusal_ends_the_reading(rt: HostRuntime) {
    claim(&rt, is_left(rt.alloc()));
}

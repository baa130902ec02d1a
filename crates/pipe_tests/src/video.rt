//! Paints by RemoteFX video, through every command: worked examples, tiles across cells by both entropy coders, a thin
//! client, and that no such paint is left out or covers another step. The answers are those of the definitions by hand,
//! and of an independent program.
use crate::claiming::claim;
use crate::examples::{answers, has_at, run_on, shows};
use gfx_base::NoMemory;
use gfxpipe::Status;
use std::alloc::Global;

const GREY_SCRIPT: &str =
    r#"picture = [{ name = "grey", width = 2, height = 1, pattern = "solid", colour = "808080ff" }]
step = [
    { do = "surface", id = 1, width = 2, height = 1 },
    { do = "paint", id = 1, picture = "grey", at = [0, 0], kind = "video" },
    { do = "frame" },
]"#;

/// Where the message of its paint begins.
const PAINT_AT: usize = 43;

/// That message, of 182 bytes, and the end of its frame: headers, a region, and a tile set of one tile, whose codes say
/// zeros.
const GREY_PAINT: &[u8] = b"\xb8\0\0\0\xe0\x04\
\x01\0\0\0\xb6\0\0\0\x01\0\x03\0\x20\0\0\0\0\x02\0\x01\0\x9d\0\0\0\
\xc0\xcc\x0c\0\0\0\xca\xac\xcc\xca\0\x01\
\xc1\xcc\x0a\0\0\0\x01\x01\0\x01\
\xc2\xcc\x0c\0\0\0\x01\0\x02\0\x01\0\
\xc3\xcc\x0d\0\0\0\x01\xff\0\x40\0\x2a\x22\
\xc4\xcc\x0e\0\0\0\x01\0\0\0\0\0\x01\0\
\xc6\xcc\x17\0\0\0\x01\0\x01\x01\0\0\0\0\0\x02\0\x01\0\xc1\xca\x01\0\
\xc7\xcc\x41\0\0\0\x01\0\xc2\xca\0\0\x55\x44\x03\x40\x01\0\x1c\0\0\0\
\x66\x66\x66\x66\x66\x66\x66\x66\x66\x66\x66\x66\x66\x66\x66\
\xc3\xca\x1c\0\0\0\0\x01\x02\0\0\0\0\x03\0\x03\0\x03\0\0\0\0\0\0\0\0\0\0\
\xc5\xcc\x08\0\0\0\x01\0\
\x0e\0\0\0\xe0\x04\x0c\0\0\0\x0c\0\0\0\x01\0\0\0";

/// The same picture in passes to a thin client, a fill of a half of it, and an improvement.
const THIN_SCRIPT: &str = r#"client = [{ version = "8.1", thin = true }]
picture = [{ name = "grey", width = 2, height = 1, pattern = "solid", colour = "808080ff" }]
step = [
    { do = "surface", id = 1, width = 2, height = 1 },
    { do = "paint", id = 1, picture = "grey", at = [0, 0], kind = "progressive" },
    { do = "frame" },
    { do = "fill", id = 1, colour = "0000ff00", rects = [[1, 0, 2, 1]] },
    { do = "improve", id = 1 },
    { do = "frame" },
]"#;

/// What comes behind the stream of `GREY_SCRIPT`: the second frame, in which nothing is improved.
const THIN_END: &[u8] = b"\x12\0\0\0\xe0\x04\x0b\0\0\0\x10\0\0\0\0\0\0\0\x02\0\0\0\
\x1a\0\0\0\xe0\x04\x04\0\0\0\x18\0\0\0\x01\0\0\0\xff\0\x01\0\x01\0\0\0\x02\0\x01\0\
\x0e\0\0\0\xe0\x04\x0c\0\0\0\x0c\0\0\0\x02\0\0\0";

/// The scripts, what their streams show, and the line of their sessions.
const SHOWN: [(&str, &str, &str); 2] = [
    (
        GREY_SCRIPT,
        "surface 1 2x1 xrgb\n808080ff808080ff\n",
        "ack 1 step 3 client 0d663d290499449ab6dc640e3c3569e49c0c2c59745f9c718ce688469beaafea server 0d663d290499449ab6dc640e3c3569e49c0c2c59745f9c718ce688469beaafea\n",
    ),
    (
        THIN_SCRIPT,
        "surface 1 2x1 xrgb\n808080ff0000ffff\n",
        "ack 1 step 6 client 33be4f62c1c58f831e006f9287389197c9fafc4e9976ef8b4a02953f2a2f78a2 server 33be4f62c1c58f831e006f9287389197c9fafc4e9976ef8b4a02953f2a2f78a2\n",
    ),
];

/// Whether a stream of grey is a paint by video, and nothing else behind its beginning.
fn is_grey(grey: &[u8]) -> bool {
    grey.get(PAINT_AT..) == Some(GREY_PAINT)
}

/// Whether the stream to a thin client is that of grey, and its end.
fn is_grey_and_more(thin: &[u8], grey: &[u8]) -> bool {
    thin.starts_with(grey) && thin.get(grey.len()..) == Some(THIN_END)
}

/// The same of the stream that `encode` makes.
fn goes_on_from(alloc: Global, grey: &[u8]) -> Result<bool, NoMemory> {
    let thin = run_on(alloc, &["encode"], THIN_SCRIPT.as_bytes(), &[], &[])?;
    Ok(thin.status == Status::Done && is_grey_and_more(thin.out.held(), grey))
}

/// Whether both scripts go in these streams.
fn streams_are_right(alloc: Global) -> Result<bool, NoMemory> {
    let grey = run_on(alloc, &["encode"], GREY_SCRIPT.as_bytes(), &[], &[])?;
    let right = grey.status == Status::Done && is_grey(grey.out.held());
    Ok(goes_on_from(alloc, grey.out.held())? && right)
}

/// Whether both scripts are shown so, and their sessions have these lines.
fn both_are_shown(alloc: Global) -> Result<bool, NoMemory> {
    for (script, dump, line) in &SHOWN {
        if !shows(alloc, script, dump)? || !has_lines(alloc, script, line)? {
            return Ok(false);
        }
    }
    Ok(true)
}

/// Whether the session of a script is done and has these lines.
fn has_lines(alloc: Global, script: &str, lines: &str) -> Result<bool, NoMemory> {
    let (bytes, lines) = (script.as_bytes(), lines.as_bytes());
    answers(alloc, &["session"], bytes, Status::Done, lines, "")
}

#[test]
fn grey_as_video_and_to_a_thin_client(rt: HostRuntime) {
    claim(&rt, streams_are_right(rt.alloc()));
    claim(&rt, both_are_shown(rt.alloc()));
}

/// A script of these parts.
fn joined(alloc: Global, parts: &[&str]) -> Result<String, NoMemory> {
    let mut script = String::new(alloc);
    for part in parts {
        script.push_str(part)?;
    }
    Ok(script)
}

/// A picture of two tiles that lie across six cells. Its two ends are copied to a second surface, which stays.
const ACROSS: &str = r#"picture = [{ name = "ramp", width = 66, height = 2, pattern = "ramp" }]
step = [
    { do = "surface", id = 1, width = 129, height = 65 },
    { do = "surface", id = 2, width = 6, height = 2 },
    { do = "paint", id = 1, picture = "ramp", at = [63, 63], kind = "video" },
    { do = "copy", from = 1, to = 2, rect = [62, 63, 65, 65], points = [[0, 0]] },
    { do = "copy", from = 1, to = 2, rect = [126, 63, 129, 65], points = [[3, 0]] },
    { do = "delete", id = 1 },
    { do = "frame" },
]"#;

const ENDS: &str =
    "surface 2 6x2 xrgb\n000000ff000000ff000000ff370138ff400040ff400040ff\n000000ff000000ff000000ff370138ff3f0040ff3f0040ff\n";

/// Where the tile set stands: its head, its quants, and of the first tile the head and the first codes, in which the
/// coders come apart.
const SET_AT: usize = 187;

const SET_BY_RLGR1: &[u8] =
    b"\xc7\xcc\x1d\x01\0\0\x01\0\xc2\xca\0\0\x55\x44\x03\x40\x02\0\xf8\0\0\0\
\x66\x66\x66\x66\x66\x66\x66\x66\x66\x66\x66\x66\x66\x66\x66\
\xc3\xca\xbf\0\0\0\0\x01\x02\0\0\0\0\x43\0\x34\0\x35\0\0\0\x1f\
\x13\xff\xff\xff\xff\xff\xff\xff\xfd\x80\0\x28\0\x07\0\x01\x40\0\x50\0\x70\0\xa0\x03\x84\x5e\0\
\xe0\x14\x05\x01\x8c\x31\x13\xc8\x31\x90\x66\x87\xdd\x06\x68\x33\x43\xef\x06\x68\x35\x63\xef\x06\x68\x33\x63";

const SET_BY_RLGR3: &[u8] =
    b"\xc7\xcc\x24\x01\0\0\x01\0\xc2\xca\0\0\x55\x50\x03\x40\x02\0\xff\0\0\0\
\x66\x66\x66\x66\x66\x66\x66\x66\x66\x66\x66\x66\x66\x66\x66\
\xc3\xca\xc6\0\0\0\0\x01\x02\0\0\0\0\x45\0\x36\0\x38\0\0\0\x1f\
\x13\xff\xff\xff\xff\xff\xff\xff\xfd\x80\0\x28\0\x07\0\x01\x40\0\x50\0\x70\0\xa0\x03\x84\x5e\0\
\xe0\x14\x05\x01\x98\xd5\xc8\x3a\x0e\x63\x1b\x9c\x83\xa0\xe6\x63\x73\x90\xe8\x73\x31\xb9\xc8\x74\x39\x98\xdf";

/// Whether the tile set of two tiles stands so by a coder, and what it shows is the same.
fn lies_across(alloc: Global, coder: &str, set: &[u8]) -> Result<bool, NoMemory> {
    let script = joined(alloc, &["video.entropy = \"", coder, "\"\n", ACROSS])?;
    stands_and_shows(alloc, script.as_str(), set)
}

/// The same of a script.
fn stands_and_shows(alloc: Global, script: &str, set: &[u8]) -> Result<bool, NoMemory> {
    Ok(has_at(alloc, script, SET_AT, set)? && shows(alloc, script, ENDS)?)
}

#[test]
fn tiles_lie_across_cells_by_either_coder(rt: HostRuntime) {
    claim(&rt, lies_across(rt.alloc(), "rlgr1", SET_BY_RLGR1));
    claim(&rt, lies_across(rt.alloc(), "rlgr3", SET_BY_RLGR3));
}

/// The parts of `between`.
const BEFORE: &str = r#"window = 1
picture = [{ name = "grey", width = 2, height = 1, pattern = "solid", colour = "808080ff" }]
step = [
    { do = "surface", id = 1, width = 2, height = 1 },
    { do = "frame" },
    { do = "fill", id = 1, colour = "0000ff00", rects = [[0, 0, 2, 1]] },
    { do = "paint", id = 1, picture = "grey", at = [0, 0], kind = ""#;

const FILLED_AGAIN: &str = r#"" },
    { do = "fill", id = 1, colour = "0000ff00", rects = [[0, 0, 2, 1]] },
    { do = "paint", id = 1, picture = "grey", at = [0, 0], kind = ""#;

const BEHIND: &str = r#"" },
    { do = "frame" },
    { do = "fill", id = 1, colour = "00ff0000", rects = [[0, 0, 1, 1]] },
    { do = "frame" },
    { do = "fill", id = 1, colour = "ff000000", rects = [[1, 0, 2, 1]] },
    { do = "frame" },
]
turn = [
    { end = "answer", take = 26 },
    { end = "server" },
    { end = "client", take = 1000 },
    { end = "answer", take = 1000 },
    { end = "server" },
    { end = "client", take = "#;

const LATER: &str = r#" },
    { end = "answer", take = 1000 },
    { end = "server" },
    { end = "server" },
]"#;

/// A script with a frame of a fill, a paint of this kind, the same fill and the same paint: each would cover what is
/// before it. The client takes so many bytes of that frame, and answers, before the next two frames are queued.
fn between(alloc: Global, client: &str, kind: &str, take: &str) -> Result<String, NoMemory> {
    joined(
        alloc,
        &[
            client,
            BEFORE,
            kind,
            FILLED_AGAIN,
            kind,
            BEHIND,
            take,
            LATER,
        ],
    )
}

/// The lines where it has answered the frame, so that each later one goes alone.
const ANSWERED: &str =
    "ack 1 step 2 client 8900a3e880baa5ca26db714b1b1a3059aed539e13018766ba426243371a6f9f1 server 8900a3e880baa5ca26db714b1b1a3059aed539e13018766ba426243371a6f9f1\n\
    ack 2 step 7 client 0d663d290499449ab6dc640e3c3569e49c0c2c59745f9c718ce688469beaafea server 0d663d290499449ab6dc640e3c3569e49c0c2c59745f9c718ce688469beaafea\n\
    ack 3 step 9 client 5727b693c727cd0e085d2289866a59bd66c18d4922dc07583a2935c5c5186248 server 5727b693c727cd0e085d2289866a59bd66c18d4922dc07583a2935c5c5186248\n\
    ack 4 step 11 client b3fbf3214a49e46ee0b771e829c0ea512b31cad264e998357c28b7eb879fc2ed server b3fbf3214a49e46ee0b771e829c0ea512b31cad264e998357c28b7eb879fc2ed\n";

/// The lines where the frame isn't whole, so that the later two go as one.
const WAITED: &str =
    "ack 1 step 2 client 8900a3e880baa5ca26db714b1b1a3059aed539e13018766ba426243371a6f9f1 server 8900a3e880baa5ca26db714b1b1a3059aed539e13018766ba426243371a6f9f1\n\
    ack 2 step 7 client 0d663d290499449ab6dc640e3c3569e49c0c2c59745f9c718ce688469beaafea server 0d663d290499449ab6dc640e3c3569e49c0c2c59745f9c718ce688469beaafea\n\
    ack 3 step 11 client b3fbf3214a49e46ee0b771e829c0ea512b31cad264e998357c28b7eb879fc2ed server b3fbf3214a49e46ee0b771e829c0ea512b31cad264e998357c28b7eb879fc2ed\n";

const THIN_CLIENT: &str = "client = [{ version = \"8.1\", thin = true }]\n";

/// Clients, kinds of paints, how many bytes of the frame are taken, and the lines.
const TAKEN: [(&str, &str, &str, &str); 4] = [
    ("", "video", "476", ANSWERED),
    ("", "video", "475", WAITED),
    (THIN_CLIENT, "progressive", "476", ANSWERED),
    (THIN_CLIENT, "progressive", "475", WAITED),
];

/// Whether the session of such a script has these lines.
fn is_answered(
    alloc: Global,
    client: &str,
    kind: &str,
    take: &str,
    lines: &str,
) -> Result<bool, NoMemory> {
    let script = between(alloc, client, kind, take)?;
    has_lines(alloc, script.as_str(), lines)
}

/// Whether each has its lines.
fn all_are_answered(alloc: Global) -> Result<bool, NoMemory> {
    for (client, kind, take, lines) in &TAKEN {
        if !is_answered(alloc, client, kind, take, lines)? {
            return Ok(false);
        }
    }
    Ok(true)
}

/// The frame has 476 bytes: 22 and 18 round two fills of 30 and two paints of 188.
#[test]
fn nothing_is_left_out_beside_video(rt: HostRuntime) {
    claim(&rt, all_are_answered(rt.alloc()));
}

/// The frames' headers of the two paints, and where they stand: messages are numbered from 0.
const FIRST: &[u8] = b"\xc4\xcc\x0e\0\0\0\x01\0\0\0\0\0\x01\0";

const SECOND: &[u8] = b"\xc4\xcc\x0e\0\0\0\x01\0\x01\0\0\0\x01\0";

/// Whether they stand in the stream of a script.
fn are_counted(alloc: Global, script: &str) -> Result<bool, NoMemory> {
    Ok(has_at(alloc, script, 191, FIRST)? && has_at(alloc, script, 409, SECOND)?)
}

/// The same of a script of two paints by video.
fn two_are_counted(alloc: Global) -> Result<bool, NoMemory> {
    let script = between(alloc, "", "video", "1")?;
    are_counted(alloc, script.as_str())
}

#[test]
fn messages_of_video_are_counted(rt: HostRuntime) {
    claim(&rt, two_are_counted(rt.alloc()));
}

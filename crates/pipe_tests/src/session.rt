//! The command `session`: scripts with turns, and the lines of the frames that were acknowledged.
use crate::claiming::claim;
use crate::examples::{FILL_SCRIPT, answers, write_fails};
use gfx_base::NoMemory;
use gfxpipe::Status;
use std::alloc::Global;

/// A surface, the same in red, and the same in green, each in a frame of its own. One frame may be in
/// flight. The server hears which versions the client offers, and has four turns: the last three queue the
/// second frame, the third and nothing, so those two go together.
const JOINED_SCRIPT: &str = r#"window = 1
step = [
    { do = "surface", id = 1, width = 4, height = 4 },
    { do = "frame" },
    { do = "fill", id = 1, colour = "0000ff00", rects = [[0, 0, 4, 4]] },
    { do = "frame" },
    { do = "fill", id = 1, colour = "00ff0000", rects = [[0, 0, 4, 4]] },
    { do = "frame" },
]
[[turn]]
end = "answer"
take = 26
[[turn]]
end = "server"
[[turn]]
end = "server"
[[turn]]
end = "server"
[[turn]]
end = "server"
"#;

/// Its lines, as a reference implementation prints them.
const JOINED: &str =
    "ack 1 step 2 client eaa547b9cc67a771bbba06e34970aaffb5a8aa72534fcaeef4ce6e3abdd6dd3d server eaa547b9cc67a771bbba06e34970aaffb5a8aa72534fcaeef4ce6e3abdd6dd3d\n\
    ack 2 step 6 client fed94e1b9fde1b21bb4a7dfe61317da07fe03b6bc03d07963cc82c6d717b2d40 server fed94e1b9fde1b21bb4a7dfe61317da07fe03b6bc03d07963cc82c6d717b2d40\n";

/// Three fills of the same rectangle, in two frames that go together: the first two are covered.
const FILLS_SCRIPT: &str = r#"window = 1
step = [
    { do = "surface", id = 1, width = 4, height = 4 },
    { do = "frame" },
    { do = "fill", id = 1, colour = "0000ff00", rects = [[0, 0, 4, 4]] },
    { do = "fill", id = 1, colour = "00ff0000", rects = [[0, 0, 4, 4]] },
    { do = "frame" },
    { do = "fill", id = 1, colour = "ff000000", rects = [[0, 0, 4, 4]] },
    { do = "frame" },
]
turn = [
    { end = "answer", take = 26 },
    { end = "server" },
    { end = "server" },
    { end = "server" },
]"#;

/// Its lines, as a reference implementation prints them.
const FILLS: &str =
    "ack 1 step 2 client eaa547b9cc67a771bbba06e34970aaffb5a8aa72534fcaeef4ce6e3abdd6dd3d server eaa547b9cc67a771bbba06e34970aaffb5a8aa72534fcaeef4ce6e3abdd6dd3d\n\
    ack 2 step 7 client e0bd4b1d1baf463b2c6313812509c94934c9292ba9ae8a173294d685b0ff97f0 server e0bd4b1d1baf463b2c6313812509c94934c9292ba9ae8a173294d685b0ff97f0\n";

/// The line of one red surface, as a reference implementation prints it.
const FILL: &str =
    "ack 1 step 3 client f14466b86cbcd4a852e050e192f505ba30efaab74eeb3926495354ecf6fd47c5 server f14466b86cbcd4a852e050e192f505ba30efaab74eeb3926495354ecf6fd47c5\n";

/// The same, and between the turns the client takes its first bytes one by one.
const CUT_SCRIPT: &str = r#"window = 1
step = [
    { do = "surface", id = 1, width = 4, height = 4 },
    { do = "frame" },
    { do = "fill", id = 1, colour = "0000ff00", rects = [[0, 0, 4, 4]] },
    { do = "frame" },
    { do = "fill", id = 1, colour = "00ff0000", rects = [[0, 0, 4, 4]] },
    { do = "frame" },
]
turn = [
    { end = "answer", take = 26 },
    { end = "client", take = 1 },
    { end = "client", take = 1 },
    { end = "server" },
    { end = "client", take = 1 },
    { end = "client", take = 30 },
    { end = "client", take = 1 },
    { end = "server" },
    { end = "server" },
    { end = "client", take = 1 },
    { end = "answer", take = 1 },
    { end = "server" },
]"#;

/// A script, how its session ends, what it prints, and what it says.
struct Case {
    script: &'static str,
    status: Status,
    out: &'static str,
    err: &'static str,
}

const CASES: [Case; 7] = [
    Case {
        script: JOINED_SCRIPT,
        status: Status::Done,
        out: JOINED,
        err: "",
    },
    Case {
        script: CUT_SCRIPT,
        status: Status::Done,
        out: JOINED,
        err: "",
    },
    Case {
        script: FILLS_SCRIPT,
        status: Status::Done,
        out: FILLS,
        err: "",
    },
    Case {
        script: FILL_SCRIPT,
        status: Status::Done,
        out: FILL,
        err: "",
    },
    Case {
        script: "",
        status: Status::Done,
        out: "",
        err: "",
    },
    Case {
        script: "turn = [{ end = \"client\" }]",
        status: Status::Refused,
        out: "",
        err: "script: Key\n",
    },
    Case {
        script: "step = [{ do = \"delete\", id = 1 }]",
        status: Status::Refused,
        out: "",
        err: "script: step 1: SurfaceAbsent\n",
    },
];

/// Whether each session is answered so.
fn all_are_answered(alloc: Global) -> Result<bool, NoMemory> {
    for case in &CASES {
        let (script, out) = (case.script.as_bytes(), case.out.as_bytes());
        if !answers(alloc, &["session"], script, case.status, out, case.err)? {
            return Ok(false);
        }
    }
    Ok(true)
}

#[test]
fn acknowledged_frames_are_told(rt: HostRuntime) {
    claim(&rt, all_are_answered(rt.alloc()));
}

/// Whether this write that fails leaves so many bytes of the lines.
fn leaves(alloc: Global, write: u64, length: usize) -> Result<bool, NoMemory> {
    let (script, lines) = (JOINED_SCRIPT.as_bytes(), JOINED.as_bytes());
    write_fails(alloc, &["session"], script, write, lines, length)
}

/// Each line is one write: what stands before a failed one is whole.
#[test]
fn each_write_of_session_fails(rt: HostRuntime) {
    claim(&rt, leaves(rt.alloc(), 1, 0));
    claim(&rt, leaves(rt.alloc(), 2, 157));
}

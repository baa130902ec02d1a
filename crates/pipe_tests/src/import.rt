//! The command `import`: sessions that begin with kept bitmaps, and inputs that are refused. The lines are those of an
//! independent program.
use crate::claiming::claim;
use crate::examples::{answers, has_come_to, run_on, write_fails};
use gfx_base::NoMemory;
use gfxpipe::Status;
use std::alloc::Global;

/// Twice a file that keeps one red pixel under key 5, and a script that shows it.
const SESSION: &[u8] =
    b"\x16\x00\x00\x00KEPT\x01\x00\x05\x00\x00\x00\x00\x00\x00\x00\x01\x00\x01\x00\x00\x00\xff\xff\x16\x00\x00\x00KEPT\x01\x00\x05\x00\x00\x00\x00\x00\x00\x00\x01\x00\x01\x00\x00\x00\xff\xff\
step = [{ do = \"surface\", id = 1, width = 2, height = 1 }, { do = \"show\", key = 5, to = 1, points = [[0, 0]] }, { do = \"frame\" }]";

const LINE: &str =
    "ack 1 step 3 client e9288e0cd1f4ccbb04a81796cbeeb0beb5a83ea9d4d0c40c7df7b9288d3ab00d server e9288e0cd1f4ccbb04a81796cbeeb0beb5a83ea9d4d0c40c7df7b9288d3ab00d\n";

/// The same where the server keeps nothing.
const ABSENT: &[u8] =
    b"\x06\x00\x00\x00KEPT\x00\x00\x16\x00\x00\x00KEPT\x01\x00\x05\x00\x00\x00\x00\x00\x00\x00\x01\x00\x01\x00\x00\x00\xff\xff\
step = [{ do = \"surface\", id = 1, width = 2, height = 1 }, { do = \"show\", key = 5, to = 1, points = [[0, 0]] }, { do = \"frame\" }]";

/// The same where the client's pixel is green.
const DIFFERS: &[u8] =
    b"\x16\x00\x00\x00KEPT\x01\x00\x05\x00\x00\x00\x00\x00\x00\x00\x01\x00\x01\x00\x00\x00\xff\xff\x16\x00\x00\x00KEPT\x01\x00\x05\x00\x00\x00\x00\x00\x00\x00\x01\x00\x01\x00\x00\xff\x00\xff\
step = [{ do = \"surface\", id = 1, width = 2, height = 1 }, { do = \"show\", key = 5, to = 1, points = [[0, 0]] }, { do = \"frame\" }]";

/// An input, how it ends, what it prints, and what it says.
struct Case {
    input: &'static [u8],
    status: Status,
    out: &'static str,
    err: &'static str,
}

const CASES: [Case; 9] = [
    Case {
        input: SESSION,
        status: Status::Done,
        out: LINE,
        err: "",
    },
    Case {
        input: ABSENT,
        status: Status::Refused,
        out: "",
        err: "script: step 2: KeyAbsent\n",
    },
    Case {
        input: DIFFERS,
        status: Status::Refused,
        out: "",
        err: "kept: 60 KeptDiffers\n",
    },
    // A length isn't all there.
    Case {
        input: b"\x16\x00",
        status: Status::Refused,
        out: "",
        err: "kept: 54 KeptShape\n",
    },
    // A length above the most, and behind it fewer bytes.
    Case {
        input: b"\x01\x00\x00\x04",
        status: Status::Refused,
        out: "",
        err: "kept: 54 KeptShape\n",
    },
    // A file that begins otherwise.
    Case {
        input: b"\x06\x00\x00\x00KEPU\x00\x00\x06\x00\x00\x00KEPT\x00\x00",
        status: Status::Refused,
        out: "",
        err: "kept: 54 KeptShape\n",
    },
    // The client's file begins otherwise.
    Case {
        input: b"\x06\x00\x00\x00KEPT\x00\x00\x06\x00\x00\x00KEPU\x00\x00",
        status: Status::Refused,
        out: "",
        err: "kept: 54 KeptShape\n",
    },
    // The client's file goes beyond the input.
    Case {
        input: b"\x06\x00\x00\x00KEPT\x00\x00\x07\x00\x00\x00KEPT\x00\x00",
        status: Status::Refused,
        out: "",
        err: "kept: 54 KeptShape\n",
    },
    // Nothing is kept, and the script is empty.
    Case {
        input: b"\x06\x00\x00\x00KEPT\x00\x00\x06\x00\x00\x00KEPT\x00\x00",
        status: Status::Done,
        out: "",
        err: "",
    },
];

/// Whether each input is answered so.
fn all_are_answered(alloc: Global) -> Result<bool, NoMemory> {
    for case in &CASES {
        let out = case.out.as_bytes();
        if !answers(alloc, &["import"], case.input, case.status, out, case.err)? {
            return Ok(false);
        }
    }
    Ok(true)
}

#[test]
fn sessions_begin_with_what_is_imported(rt: HostRuntime) {
    claim(&rt, all_are_answered(rt.alloc()));
}

/// Whether this read that fails ends all, and nothing is printed.
fn read_fails(alloc: Global, read: u64) -> Result<bool, NoMemory> {
    let reads = [read];
    let ran = run_on(alloc, &["import"], SESSION, &reads, &[])?;
    Ok(has_come_to(&ran, Status::ReadFault, &[], "input: read failed\n"))
}

/// The second read finds that nothing is left.
#[test]
fn each_read_of_import_fails(rt: HostRuntime) {
    claim(&rt, read_fails(rt.alloc(), 1));
    claim(&rt, read_fails(rt.alloc(), 2));
}

#[test]
fn a_write_of_import_fails(rt: HostRuntime) {
    let fails = write_fails(rt.alloc(), &["import"], SESSION, 1, &[], 0);
    claim(&rt, fails);
}

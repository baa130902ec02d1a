//! Faults of scripts, and small caches that overflow.
use crate::claiming::claim;
use crate::examples::{answers, nobody, run_by, run_on};
use gfx_base::NoMemory;
use gfxpipe::Status;
use std::alloc::Global;

/// Scripts with one fault each, and the line of it as a reference implementation prints it.
const FAULTS: [(&str, &str); 21] = [
    ("step = 3", "script: Key\n"),
    ("steps = []", "script: Key\n"),
    ("client = []\nstep = []", "script: Range\n"),
    ("client = [{ version = \"9\" }]", "script: Key\n"),
    (
        "picture = [{ name = \"a\", width = 0, height = 1, pattern = \"ramp\" }]",
        "script: Range\n",
    ),
    (
        "picture = [{ name = \"a\", width = 1, height = 1, pattern = \"hex\", pixels = \"00\" }]",
        "script: Pixels\n",
    ),
    (
        "picture = [{ name = \"a\", width = 1, height = 1, pattern = \"ramp\" }, { name = \"a\", width = 1, height = 1, pattern = \"ramp\" }]",
        "script: Name\n",
    ),
    ("step = [{ do = \"jump\" }]", "script: step 1: Key\n"),
    (
        "step = [{ do = \"surface\", id = 65536, width = 1, height = 1 }]",
        "script: step 1: Range\n",
    ),
    (
        "step = [{ do = \"surface\", id = 1, width = 1, height = 1 }, { do = \"surface\", id = 1, width = 1, height = 1 }]",
        "script: step 2: SurfacePresent\n",
    ),
    (
        "step = [{ do = \"surface\", id = 1, width = 8192, height = 8192 }, { do = \"surface\", id = 2, width = 1, height = 1 }]",
        "script: step 2: CellBudget\n",
    ),
    (
        "step = [{ do = \"delete\", id = 1 }]",
        "script: step 1: SurfaceAbsent\n",
    ),
    (
        "step = [{ do = \"fill\", id = 1, colour = \"00\", rects = [[0, 0, 1, 1]] }]",
        "script: step 1: Pixels\n",
    ),
    (
        "step = [{ do = \"fill\", id = 1, colour = \"00000000\", rects = [] }]",
        "script: step 1: Range\n",
    ),
    (
        "step = [{ do = \"show\", key = 1, to = 1, points = [[0, 0]] }]",
        "script: step 1: KeyAbsent\n",
    ),
    (
        "client = [{ version = \"10\", small = true }]\nstep = [{ do = \"surface\", id = 1, width = 2049, height = 2048 }, { do = \"keep\", id = 1, key = 1, rect = [0, 0, 2049, 2048] }]",
        "script: step 2: BitmapSize\n",
    ),
    (
        "client = [{ version = \"8\", thin = true }]\nstep = [{ do = \"surface\", id = 1, width = 2049, height = 2048 }, { do = \"keep\", id = 1, key = 1, rect = [0, 0, 2049, 2048] }]",
        "script: step 2: BitmapSize\n",
    ),
    (
        "client = [{ version = \"10\", thin = false }]",
        "script: Key\n",
    ),
    ("video = { entropy = \"rlgr2\" }", "script: Key\n"),
    ("video = { transform = \"plain\" }", "script: Key\n"),
    (
        "picture = [{ name = \"a\", width = 1, height = 1, pattern = \"ramp\" }]\nstep = [{ do = \"surface\", id = 1, width = 1, height = 1 }, { do = \"paint\", id = 1, picture = \"a\", at = [0, 0], kind = \"video\", glyph = 7 }]",
        "script: step 2: Glyph\n",
    ),
];

/// The first script whose fault is told otherwise, if there is one.
fn first_wrong(alloc: Global) -> Result<Option<&'static str>, NoMemory> {
    for (script, line) in &FAULTS {
        let bytes = script.as_bytes();
        if !answers(alloc, &["encode"], bytes, Status::Refused, &[], line)? {
            return Ok(Some(*script));
        }
    }
    Ok(None)
}

#[test]
fn the_first_fault_is_told(rt: HostRuntime) {
    assert_eq!(rt; first_wrong(rt.alloc()), Ok(None));
}

/// The script of one fill, around its rectangles.
const FILL_FRONT: &str =
    "step = [{ do = \"surface\", id = 1, width = 1, height = 1 }, { do = \"fill\", id = 1, colour = \"00000000\", rects = [";

const FILL_BACK: &str = "] }, { do = \"frame\" }]";

/// Puts a fill of so many empty rectangles behind a script.
fn push_rects(script: &mut String, count: usize) -> Result<(), NoMemory> {
    script.push_str(FILL_FRONT)?;
    for _ in 0..count {
        script.push_str("[0,0,0,0],")?;
    }
    script.push_str(FILL_BACK)?;
    Ok(())
}

/// A script of one fill of so many empty rectangles.
fn many_rects(alloc: Global, count: usize) -> Result<String, NoMemory> {
    let mut script = String::new(alloc);
    push_rects(&mut script, count)?;
    Ok(script)
}

/// Whether the most rectangles aren't refused. Their stream is longer than the room for it.
fn most_are_taken(alloc: Global) -> Result<bool, NoMemory> {
    let most = many_rects(alloc, 1024)?;
    let ran = run_on(alloc, &["encode"], most.as_bytes(), &[], &[])?;
    Ok(ran.status != Status::Refused)
}

/// Whether one more is refused.
fn more_are_refused(alloc: Global) -> Result<bool, NoMemory> {
    let more = many_rects(alloc, 1025)?;
    let (refused, line) = (Status::Refused, "script: step 2: Range\n");
    answers(alloc, &["encode"], more.as_bytes(), refused, &[], line)
}

#[test]
fn rectangles_are_1024_at_most(rt: HostRuntime) {
    claim(&rt, most_are_taken(rt.alloc()));
    claim(&rt, more_are_refused(rt.alloc()));
}

/// What keeping one pixel under key 2 sends where slot 1 goes for it, and the end of the frame.
const KEPT_IN_SLOT_1: [u8; 68] = [
    // EvictCacheEntry 1.
    0xc, 0, 0, 0, 0xe0, 4, 8, 0, 0, 0, 0xa, 0, 0, 0, 1, 0,
    // SurfaceToCache: one pixel is key 2 in slot 1.
    0x1e, 0, 0, 0, 0xe0, 4, 6, 0, 0, 0, 0x1c, 0, 0, 0, 1, 0, 2, 0, 0, 0, 0, 0, 0, 0, 1, 0, 0, 0, 0,
    0, 1, 0, 1, 0,
    // EndFrame 1.
    0xe, 0, 0, 0, 0xe0, 4, 0xc, 0, 0, 0, 0xc, 0, 0, 0, 1, 0, 0, 0,
];

const SMALL_CLIENT: &str = "client = [{ version = \"10\", small = true }]\n";

/// The room of the streams of such clients' scripts.
const ROOM: usize = 200_000;

/// The largest bitmap that a small cache holds, and one more.
const BYTES_SCRIPT: &str = r#"step = [
    { do = "surface", id = 1, width = 2048, height = 2048 },
    { do = "keep", id = 1, key = 1, rect = [0, 0, 2048, 2048] },
    { do = "keep", id = 1, key = 2, rect = [0, 0, 1, 1] },
    { do = "frame" },
]"#;

/// Puts a step behind a script that keeps one pixel under a key.
fn push_keep(script: &mut String, key: u16) -> Result<(), NoMemory> {
    script.push_str("{ do = \"keep\", id = 1, rect = [0, 0, 1, 1], key = ")?;
    script.push_str(itoa::Buffer::new().format(key))?;
    script.push_str(" },")?;
    Ok(())
}

/// Puts steps behind a script that fill all slots of a small cache, and keep one bitmap more.
fn push_slots(script: &mut String) -> Result<(), NoMemory> {
    script.push_str("step = [{ do = \"surface\", id = 1, width = 1, height = 1 },")?;
    for number in 0..4096u16 {
        push_keep(script, number + 3)?;
    }
    push_keep(script, 2)?;
    script.push_str("{ do = \"frame\" }]")?;
    Ok(())
}

/// Whether slot 1 goes for the last bitmap of a script.
fn first_is_dropped(alloc: Global, script: &str) -> Result<bool, NoMemory> {
    let mut choosers = nobody(alloc);
    let bytes = script.as_bytes();
    let ran = run_by(alloc, &["encode"], &mut choosers, ROOM, bytes, &[], &[])?;
    Ok(ran.status == Status::Done && ran.out.held().ends_with(&KEPT_IN_SLOT_1))
}

/// The same of a small client's script of the largest bitmap and one more.
fn bytes_are_dropped(alloc: Global) -> Result<bool, NoMemory> {
    let mut script = String::from_str(alloc, SMALL_CLIENT)?;
    script.push_str(BYTES_SCRIPT)?;
    first_is_dropped(alloc, script.as_str())
}

/// The same of one that fills all slots.
fn slots_are_dropped(alloc: Global) -> Result<bool, NoMemory> {
    let mut script = String::from_str(alloc, SMALL_CLIENT)?;
    push_slots(&mut script)?;
    first_is_dropped(alloc, script.as_str())
}

#[test]
fn a_full_small_cache_drops_its_first_bitmap(rt: HostRuntime) {
    claim(&rt, bytes_are_dropped(rt.alloc()));
    claim(&rt, slots_are_dropped(rt.alloc()));
}

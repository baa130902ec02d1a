//! Scripts of three frames under a window of one, so that the second and the third go together.

/// A script, whether its client has the small cache, and the rule that it shows.
pub struct Example {
    pub rule: &'static str,
    pub small: bool,
    pub script: &'static str,
}

pub const EXAMPLES: [Example; 6] = [
    // A surface, the same in red, and the same in green.
    Example {
        rule: "a covered fill is left out",
        small: false,
        script: r#"window = 1
step = [
    { do = "surface", id = 1, width = 4, height = 4 },
    { do = "frame" },
    { do = "fill", id = 1, colour = "0000ff00", rects = [[0, 0, 4, 4]] },
    { do = "frame" },
    { do = "fill", id = 1, colour = "00ff0000", rects = [[0, 0, 4, 4]] },
    { do = "frame" },
]"#,
    },
    // The red one is copied before it turns green.
    Example {
        rule: "a fill that a copy reads stays",
        small: false,
        script: r#"window = 1
step = [
    { do = "surface", id = 1, width = 4, height = 4 },
    { do = "surface", id = 2, width = 4, height = 4 },
    { do = "frame" },
    { do = "fill", id = 1, colour = "0000ff00", rects = [[0, 0, 4, 4]] },
    { do = "copy", from = 1, to = 2, rect = [0, 0, 4, 4], points = [[0, 0]] },
    { do = "frame" },
    { do = "fill", id = 1, colour = "00ff0000", rects = [[0, 0, 4, 4]] },
    { do = "frame" },
]"#,
    },
    // Both halves of a surface, twice.
    Example {
        rule: "two rectangles that only two cover stay",
        small: false,
        script: r#"window = 1
step = [
    { do = "surface", id = 1, width = 4, height = 4 },
    { do = "frame" },
    { do = "fill", id = 1, colour = "0000ff00", rects = [[0, 0, 2, 4], [2, 0, 4, 4]] },
    { do = "frame" },
    { do = "fill", id = 1, colour = "00ff0000", rects = [[0, 0, 2, 4], [2, 0, 4, 4]] },
    { do = "frame" },
]"#,
    },
    // Two bitmaps that the small cache can't hold together, though each fits alone.
    Example {
        rule: "a small cache overflows while frames are joined",
        small: true,
        script: r#"window = 1
client = [{ version = "10", small = true }]
step = [
    { do = "surface", id = 1, width = 2048, height = 1025 },
    { do = "frame" },
    { do = "keep", id = 1, key = 1, rect = [0, 0, 2048, 1025] },
    { do = "frame" },
    { do = "keep", id = 1, key = 2, rect = [0, 0, 2048, 1025] },
    { do = "frame" },
]"#,
    },
    // White above black goes as a column, the turned picture waits and is covered, and the first goes again.
    Example {
        rule: "a covered paint stores no column, and the next finds the one before",
        small: false,
        script: r#"window = 1
picture = [
    { name = "step", width = 1, height = 2, pattern = "hex", pixels = "ffffffff000000ff" },
    { name = "turned", width = 1, height = 2, pattern = "hex", pixels = "000000ffffffff40" },
]
step = [
    { do = "surface", id = 1, width = 1, height = 2 },
    { do = "paint", id = 1, picture = "step", at = [0, 0], kind = "bands" },
    { do = "frame" },
    { do = "paint", id = 1, picture = "turned", at = [0, 0], kind = "bands" },
    { do = "frame" },
    { do = "paint", id = 1, picture = "step", at = [0, 0], kind = "bands", glyph = 7 },
    { do = "frame" },
]"#,
    },
    // Two pictures whose kinds are left open: a low one goes as a column, the other, of three rows, by runs.
    Example {
        rule: "a chooser says how pictures go",
        small: false,
        script: r#"window = 1
picture = [
    { name = "low", width = 1, height = 2, pattern = "hex", pixels = "ffffffff000000ff" },
    { name = "high", width = 1, height = 3, pattern = "solid", colour = "0000ffff" },
]
step = [
    { do = "surface", id = 1, width = 1, height = 3 },
    { do = "paint", id = 1, picture = "low", at = [0, 0] },
    { do = "frame" },
    { do = "paint", id = 1, picture = "high", at = [0, 0] },
    { do = "frame" },
    { do = "paint", id = 1, picture = "low", at = [0, 1], kind = "raw" },
    { do = "frame" },
]"#,
    },
];

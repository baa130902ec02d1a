//! Scripts of a recorded screen: what the server's end shows, step by step, the pictures that it paints,
//! and what a session of both ends is like: its window, what its client offers, how progressive and video paints
//! are coded, its turns. Which steps are good is checked against what the steps before them left, by `Held`.
//!
//! A script comes of a text, or of calls: `ScriptBuilder` makes a whole one, `Script::grow` adds to one what a `Draft`
//! has gathered, and `Picture::from_rows` takes a screen's own bytes. Each call judges as the reader does.
//!
//! In the pipe it stands below the reading of scripts from text (`gfx_script_text`) and the planner,
//! which makes each step into messages. Scripts are this project's own (docs/SCRIPTS.md).
#![tactic(auto)]

mod builder;
mod draft;
mod error;
mod forgetting;
mod head;
mod held;
mod laws;
mod picture;
mod ranges;
mod rows;
mod script;
mod sparing;
mod start;
mod step;
mod stock;
mod turn;
mod way;

pub use builder::ScriptBuilder;
pub use draft::Draft;
pub use error::{Flaw, ScriptKind};
pub use head::{Head, HeadParts};
pub use held::{Held, Sides};
pub use laws::{accepted_scripts_are_built, chosen_versions_are_offers};
pub use picture::{Pattern, Picture};
pub use script::{Script, ScriptParts, is_framed};
pub use sparing::Marks;
pub use start::{StartBitmap, imported_start};
pub use step::{Entropy, Kind, Step};
pub use turn::Turn;
pub use way::Way;

/// The most steps of a script, and the most pictures, those that it has forgotten too.
pub const MOST_STEPS: u32 = 4_000_000_000;

/// The most steps of a script that is read.
pub const MOST_STEPS_READ: u32 = 100_000;

/// The most rectangles of a fill, and the most points of a copy or of a bitmap that is shown.
pub const MOST_RECTS: usize = 1024;

/// The most pictures of a script that is read.
pub const MOST_PICTURES: usize = 1024;

/// The most pixels of a picture.
pub const MOST_AREA: u32 = 8388608;

/// The most that a key of a bitmap is.
pub const MOST_KEY: u64 = 9223372036854775807;

/// The most that the index of a glyph is ([MS-RDPEGFX] 2.2.4.1, glyphIndex).
pub const MOST_GLYPH: u16 = 3999;

/// The most pixels of a picture that is kept as a glyph ([MS-RDPEGFX] 2.2.4.1).
pub const MOST_GLYPH_AREA: u32 = 1024;

/// The most versions that a client offers.
pub const MOST_VERSIONS: usize = 8;

/// The most frames in flight that a script allows.
pub const MOST_WINDOW: u8 = 64;

/// How many frames may be in flight where nothing else is said.
pub const USUAL_WINDOW: u8 = 2;

/// The most turns.
pub const MOST_TURNS: u32 = 1_000_000;

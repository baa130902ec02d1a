//! Scripts as text in TOML. `read_script` reads one whole, or says what is wrong with it and at which
//! step. `read_script_kept` reads one whose session starts with kept bitmaps.
//!
//! In the pipe it stands before the planner, which makes each step of a script into messages. The
//! format is this project's own (docs/SCRIPTS.md).
#![tactic(auto)]

mod bands;
mod cache;
mod client;
mod colour;
mod copy;
mod error;
mod fill;
mod levels;
mod members;
mod names;
mod output;
mod paint;
mod pictures;
mod places;
mod progressive;
mod promises;
mod reading;
mod session;
mod surface;
mod video;
mod words;

pub use error::ScriptError;
pub use promises::{accepted_scripts_are_good, kept_scripts_are_good};
pub use reading::{read_script, read_script_kept};

/// The most that an id or a coordinate is.
pub const MOST_NUMBER: u16 = 65535;

/// The most bytes that a turn takes.
pub const MOST_TAKE: u32 = 4_294_967_295;

/// The most low bits that a level of progressive quality leaves out of a band.
pub const MOST_LEFT_OUT: u8 = 9;

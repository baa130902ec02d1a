//! The messages of progressive paints at the server's end ([MS-RDPEGFX] 2.2.4.2): tiles at the first level,
//! and what raises them from a level to the next.
//!
//! It stands on the tiles at their source and on the grammar of blocks. The planner chooses which tiles are
//! sent, and puts the data into messages of the channel.
#![tactic(auto)]

mod data;
mod message;
mod region;
mod send;

pub use message::{improve_message, paint_message};
pub use send::TileSend;

/// How many tiles a message has at most. This project's own rule.
pub const MOST_SENDS: usize = 256;

/// The encoding context of all progressive paints ([MS-RDPEGFX] 2.2.2.2, codecContextId). This project's
/// own rule.
pub const CONTEXT: u32 = 1;

//! Records over two pipes: how a program that another program drives reads its commands and writes its answers
//! (docs/LIVE.md). A record is a kind, the length of a body, and the body.
//!
//! It stands on `gfx_base` alone, and below the programs `live_server` and `live_client`, which say what the kinds mean.
#![tactic(auto)]

mod ending;
mod reading;
mod writing;

pub use ending::Ending;
pub use reading::{Limits, Record, read_record};
pub use writing::write_record;

//! Lines of text that are put together without memory: the lines of a report, and those that say how a
//! run has ended.
//!
//! In the pipe the reports and the program stand on it.
#![tactic(auto)]

mod line;

pub use line::{LINE_ROOM, Line};

//! Readers and writers of the standard library as the source and the sink of the program.
//!
//! In the pipe they are its edge: the program makes them of the real streams, and nothing below knows
//! of those. What a reader or a writer tells of its bytes, they tell.
#![tactic(auto)]

mod sink;
mod source;

pub use sink::StdSink;
pub use source::StdSource;

//! Two commands on the fragments of a dynamic virtual channel ([MS-RDPEDYC] 2.2.3): `fragment` reads a stream of
//! channel messages and writes its recording of fragments, and `join` reads a recording of fragments and writes the
//! stream. Both write while they read.
//!
//! In the pipe the crate stands below the program, on the loop that reads an input (`gfx_input`), on the framing of
//! streams (`gfx_segment`), and on the cutting and joining of one message (`gfx_dvc`). What is in a message it doesn't
//! know.
#![tactic(auto)]

mod edge;
mod ended;
mod fragmenting;
mod joining;
mod laws;
mod pending;

pub use ended::Ended;
pub use fragmenting::fragment;
pub use joining::join;
pub use laws::{a_stream_comes_back, any_cutting_is_joined};

//! The program: its words, a source and two sinks go into one public call, `run`.
//!
//! It stands on the command line and on both ends of the channel, which it joins to the outside. For
//! `render` the bytes of a recording are given to a client piece by piece, and what the client then
//! holds is printed. For `audit` a line is written for each message of a recording, and at its end what
//! the client then holds is told. For `encode` a script is read whole, and its stream is written frame by
//! frame. For `session` a script is read whole, both ends of its session are played, and a line is written
//! for each acknowledged frame; for `import` so too, from bitmaps that both ends kept. `make` writes a
//! script that a number stands for, and `trial` plays its session. `fragment` writes the recording of
//! fragments of a stream, and `join` the stream of such a recording.
#![tactic(auto)]

mod audit;
mod encode;
mod ending;
mod flushed;
mod fragments;
mod import;
mod laws;
mod make;
mod outcome;
mod program;
mod recording;
mod render;
mod script;
mod session;
mod status;
mod stream;
mod trial;
mod trouble;

pub use ending::Ending;
pub use flushed::say_flushed;
pub use laws::{
    every_line_has_equal_digests, every_line_of_an_import_has_equal_digests,
    render_shows_what_encode_wrote,
};
pub use program::{Ran, SCRIPT_LIMIT, STREAM_LIMIT, run};
pub use render::Dump;
pub use status::Status;
pub use trouble::Trouble;

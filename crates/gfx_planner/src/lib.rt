//! The server's end of the graphics channel: each step of a script is made into messages, which are
//! put out as the bytes of channel messages. The planner keeps the state that they give, as the
//! client will once it has taken them.
//!
//! In the pipe it stands between the script and the bytes of the stream.
#![tactic(auto)]

mod clear_paint;
mod importing;
mod laws;
mod messages;
mod paint;
mod passes;
mod planner;
mod sender;
mod step_sending;
mod streaming;
mod video;

pub use laws::{
    clear_paints_show_their_source, joined_frames_are_shown, live_tiles_are_shown,
    steps_write_within, streams_show_their_scripts,
};
pub use planner::{MOST_FRAMES, Planner};
pub use streaming::put_in_frame;

//! Both ends of a session and the wires between them, under every schedule: definitions and laws alone.
//!
//! A session's two ends are the server's, which plans a script's steps and joins them into frames under
//! the window, and the client, which draws what it is sent and acknowledges each frame. What they do is a
//! function of the script and of the turns that they take, in any order and with bytes cut anywhere. The
//! laws here say that neither end ever refuses anything, and what is equal at each acknowledged frame.
//! A session may also be fed: its script grows while it goes on. Then it is, at each moment, a session of
//! the whole script so far, and all that is said of every session holds of it. And where nothing of its script waits,
//! it may forget pictures and steps.
//! `gfx_session` has the two ends as a program.
#![tactic(auto)]

mod feeding;
mod forgetting;
mod laws;
mod leaving;
mod sparing;
mod suspending;
mod turned;

pub use feeding::{
    every_feed, feeding_is_scripting, growth_is_good, later_steps_are_not_seen,
    waiting_waits_for_the_client,
};
pub use forgetting::forgetting_is_not_seen;
pub use laws::{
    every_import, every_schedule, every_schedule_alike, every_schedule_from_a_start, rounds_end,
};
pub use leaving::{
    leaving_is_allowed, leaving_is_not_seen, leaving_is_superseding, leaving_only_leaves,
};
pub use sparing::sparing_is_not_seen;
pub use suspending::unwatched_frames_are_taken;
pub use turned::Turned;

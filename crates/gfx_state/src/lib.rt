//! The state of the graphics channel: what a message does to it, and what does it.
//!
//! What goes in is a message, whose effect is the step of `specs/Step`; what comes out is that it was applied, or the first
//! reason against it, and then nothing has changed. The state that is kept: the surfaces, the cache of bitmaps, what
//! ClearCodec streams left for later ones, the records of progressive tiles, the open frame and the count of frames.
//!
//! The client applies what it reads, and the server's planner what it sends, so that there is one step and nothing to prove
//! equal between the two. Beside the run of a stream, which is what its bytes come to, stands its history: the messages
//! applied, and the state after each. The functions of the laws have no parameters and no work to do: each states a law of
//! the definitions, and its contract is the law.
#![tactic(auto)]

mod bitmaps;
mod flags;
mod laws;
mod screen;

pub use laws::{
    histories_go_on, moves_make_the_history, pieces_are_the_whole, refusals_stay,
    sent_messages_are_their_history, sent_messages_are_their_steps, steps_keep_the_run,
    wider_states_accept_alike,
};
pub use screen::State;

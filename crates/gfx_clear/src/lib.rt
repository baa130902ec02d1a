//! ClearCodec, both ways: a stream for a rectangle of a surface, read and drawn, and the stream that a server
//! sends for a picture. `ClearState` is what either end keeps from stream to stream.
//!
//! It stands on the leaves of the codec: runs, bands with their rings, and glyphs. The states of both ends of
//! the pipe hold one each: the client decodes, the server's end sends.
#![tactic(auto)]

mod area;
mod canvas;
mod clear_state;
mod drawing;
mod encoding;
mod head;
mod laws;
mod layer;
mod part;
mod parts;
mod pixels;
mod subcodecs;
mod whole;

pub use clear_state::ClearState;
pub use encoding::MOST_PIXELS;
pub use laws::{held_is_shown, residual_shows, sent_is_decoded, subcodec_shows};
pub use layer::Layer;

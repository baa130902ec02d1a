//! What a server's end of a session keeps between its steps and its client: the steps that wait for a
//! frame, which of them a later one covers, and the frames that the client has not acknowledged.
//!
//! It stands on `gfx_script` for the steps, and knows nothing of messages but the depth that suspends
//! acknowledgements: a session queues steps, asks which of them need not be sent, and sends the others as one frame
//! while the window has room.
#![tactic(auto)]

mod covering;
mod index;
mod leaving;
mod promises;
mod sparing;
mod window;

pub use promises::superseded_is_the_rule;
pub use window::{AckUnknown, Queued, Sent, Window};

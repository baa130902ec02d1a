//! A session: the server's end, which plans a script's steps and joins them into frames, and a client,
//! joined by two queues of bytes and moved by turns.
//!
//! A server with no finished script has `LiveEnd`: a server's end whose script grows while the session goes on.
//!
//! In the pipe it stands above the planner and the window, which make what is sent, the client, which
//! draws it, and the report, which digests what both have. What a session does is that of `gfx_schedule`,
//! which has the laws on it: neither end refuses anything, and the ends agree at each acknowledged frame.
//! Nothing of the past is kept but digests, where they are asked for, and no byte that was used.
//!
//! The server's end queues frames at once, and sends them once a version is confirmed:
//!
//! ```text
//!                      serve: frames queued                     serve: frames queued, sent
//!                          +----+                                     +----+
//!                          v    |                                     v    | take: their acknowledgements
//! new() -----------------> unconfirmed --- take: what it offers ---> confirmed <------------- with_kept()
//!                               |                                     |    |
//!   a fault of what is taken    +--> closed (takes nothing more) <----+    +--> ended (all is acknowledged)
//! ```
//!
//! Want of memory in `serve` leaves it spent: it answers that from then on.
#![tactic(auto)]

mod acked;
mod digests;
mod drawing;
mod importing;
mod live_end;
mod noting;
mod queue;
mod server_end;
mod session;

pub use acked::{Acked, Acks};
pub use digests::Digests;
pub use gfx_schedule::Turned;
pub use live_end::{KeptFault, LiveEnd, LiveFault};
pub use server_end::{ServerEnd, ServerFault, ShownFrame};
pub use session::Session;

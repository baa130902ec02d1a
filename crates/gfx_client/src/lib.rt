//! The client's end of the graphics channel: it is given the bytes of a stream in any pieces, and
//! draws its messages, one at a time, on its surfaces. What it has to say to the server, its offers and
//! the acknowledgement of each frame, it gives as the bytes that are sent.
//!
//! In the pipe it stands above the framing, the messages and the surfaces, and below the program,
//! which prints what it holds. What a message does is the step of `gfx_state`. A client keeps no byte
//! that it has used; its contracts say which bytes it stands for, and what of their history it has
//! brought about.
//!
//! ```text
//!                  take: bytes      step: a message applied, a frame ended, or Need
//!                       +----+        +----+
//!                       v    |        v    |
//! new() -- import? --> open -----------------> closed (each later call answers the first fault again)
//!                               the first refusal, or want of memory
//! ```
#![tactic(auto)]

mod client;
mod fault;
mod laws;
mod offered;
mod replies;
mod stepped;

pub use client::Client;
pub use fault::ClientFault;
pub use gfx_caps::{MOST_OFFERS, Offer, Offers};
pub use gfx_damage::{Damage, MOST_RECTS};
pub use laws::{a_declined_offer_is_passed_over, replies_go_on, what_a_client_writes_is_read};
pub use stepped::Stepped;

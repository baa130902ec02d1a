//! The framing of the graphics channel: bytes that come in any pieces become channel messages and
//! their payloads, and a payload becomes a channel message.
//!
//! In the pipe it stands between the bytes of a recording and the graphics messages, whose layout it
//! doesn't know. Both readers keep the bytes that are no whole message yet, and the first refusal, behind
//! which they take nothing. `Splitter` gives each message as bytes of its own:
//!
//! ```text
//!           a whole message, or too few bytes
//!             +----+
//!             v    |
//! new() --> holding --- a length or a message that is refused --> refused (it answers this again)
//! ```
//!
//! `Payloads` lends one payload at a time:
//!
//! ```text
//! new() --> closed --- open_next: a message of one block ------> lying  (lent where it was fed)
//!             ^   \--- open_next: a message of several blocks --> joined (lent from a buffer that stays)
//!             |                                                   |
//!             +------------------ pass: its last byte ------------+
//! ```
//!
//! Where a transport keeps channel messages apart, as a dynamic virtual channel does, no length stands before one:
//! `WholeMessages` gives those in bytes that an end put out, and both readers are fed one by `feed_whole`.
#![tactic(auto)]

mod blocks;
mod edge;
mod laws;
mod payloads;
mod profile;
mod splitter;
mod whole;
mod writing;

pub use laws::{a_prefixed_message_is_whole, any_cutting_gives_the_same, whole_messages_are_given};
pub use payloads::Payloads;
pub use profile::{
    COMPRESSED, MOST_BLOCK, MOST_PAYLOAD, MULTIPART, PREFIX, RDP8, SEGMENTS_AT, SINGLE, SIZE_AT,
    TYPES,
};
pub use splitter::Splitter;
pub use whole::WholeMessages;
pub use writing::{prefix, wrap, wrap_joined};

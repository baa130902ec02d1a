//! The server's messages of the graphics channel ([MS-RDPEGFX] 2.2.2), read from the bytes of a
//! payload and written as bytes.
//!
//! In the pipe it stands between the payloads that `gfx_segment` cuts out of a stream and the state
//! that the messages change: a reader calls `read_pdu` until a payload ends, a server `write_pdu`
//! for each message.
#![tactic(auto)]

mod codec;
mod drawing;
mod header;
mod id;
mod output;
mod pdu;
mod promises;
mod reading;
mod writing;

pub use codec::{Codec, PROGRESSIVE};
pub use id::Id;
pub use pdu::{MOST_MONITORS, Monitor, Monitors, Pdu, PduRef};
pub use promises::{
    a_cut_message_is_truncated, what_is_read_is_spelled, what_is_spelled_is_read,
    what_is_written_is_spelled,
};
pub use reading::{read_pdu, read_pdu_ref};
pub use writing::{write_front, write_pdu};

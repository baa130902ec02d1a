//! Messages of RemoteFX Progressive, applied ([MS-RDPEGFX] 2.2.4.2 and 3.2.8): the data of a message change the
//! surface that it is for, and the records of tiles that `Records` keeps from message to message.
//!
//! It stands on the blocks of the data, on the records of tiles, and on surfaces. The client of the pipe and
//! the server's planner each hold one `Records`, in the state that messages change.
#![tactic(auto)]

mod applying;
mod bench;
mod canvas;
mod coding;
mod improving;
mod key;
mod laws;
mod log;
mod passing;
mod records;
mod saved;
mod showing;
mod spare;
mod starting;
mod tile_log;

pub use key::{Key, Place};
pub use laws::one_transform;
pub use records::Records;

/// How many records there are at most, of all surfaces and contexts. This project's own rule.
pub const MOST_RECORDS: usize = 16_384;

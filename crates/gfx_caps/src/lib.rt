//! The client's messages of the graphics channel ([MS-RDPEGFX] 2.2.2.13, 2.2.2.16, 2.2.2.18 and 2.2.2.21), read from
//! bytes and written as bytes, and the choice of a version among those that a client offers.
//!
//! In the pipe it stands beside `gfx_pdu`, which has the messages of the server: a client writes its
//! offers and acknowledgements by it, and a server's end reads them and chooses. The numbers of versions
//! and flags have their home here.
#![tactic(auto)]

mod bodies;
mod choice;
mod client_id;
mod entries;
mod header;
mod message;
mod offer;
mod promises;
mod reading;
mod sets;
mod versions;
mod writing;

pub use choice::{Chosen, binds_small, choose_version, has_flag, small_cache};
pub use client_id::ClientId;
pub use entries::{CacheEntries, CacheEntry};
pub use message::{ClientPdu, SUSPENDS};
pub use offer::{MOST_OFFERS, Offer, Offers, advertise, offers_small, offers_thin};
pub use promises::{
    what_is_read_from_a_client_is_spelled, what_is_spelled_for_a_client_is_read,
    what_is_written_for_a_client_is_spelled,
};
pub use reading::read_client;
pub use sets::{CapsSet, CapsSets};
pub use versions::{
    AVC_DISABLED, FLAGS_SIZE, SMALL_CACHE, THIN_CLIENT, VERSION_8, VERSION_8_1, VERSION_10,
};
pub use writing::write_client;

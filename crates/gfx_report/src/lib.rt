//! The texts that report what a client shows: the dump of its surfaces, and that of its output; the digest
//! of its state, and the lines of an acknowledged frame and of a trial, which have two; and the texts of an
//! audit, a line for each message, and at the end what the caches hold. It reads messages, surfaces, bitmaps
//! and what a ClearCodec decoder holds, and writes to a sink; it never sees the bytes of the channel, and it
//! takes memory for one row of the output alone.
//!
//! It stands on `gfx_pdu`, `gfx_surface_map`, `gfx_bitmap_cache` and `gfx_clear`, and the program's commands
//! stand on it.
#![tactic(auto)]

mod ack;
mod audit;
mod colours;
mod decoder;
mod digits;
mod fault;
mod hashing;
mod hexadecimal;
mod laws;
mod line;
mod message;
mod output;
mod row;
mod slots;
mod state;
mod stores;
mod surface;
mod surfaces;
mod trial;

pub use ack::write_ack;
pub use audit::audit_end;
pub use fault::ReportFault;
pub use laws::digests_follow_states;
pub use message::audit_line;
pub use output::dump_output;
pub use state::digest;
pub use surfaces::dump;
pub use trial::write_trial;

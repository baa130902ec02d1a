//! RLGR, the entropy coder of RemoteFX: 4,096 values of a tile's component as bits, both ways, in both modes, RLGR1 and RLGR3.
//!
//! The tile codecs stand on it. The first pass of a progressive tile carries each component as bits of RLGR1, and a tile of
//! RemoteFX video by the mode that its tile set names.
#![tactic(auto)]

mod decoder;
mod digits;
mod encoder;
mod laws;
mod mode;
mod number_reader;
mod number_writer;
mod pair_reader;
mod params;
mod placing;

pub use decoder::decode;
pub use encoder::encode;
pub use laws::{
    broken_pairs_are_refused, codes_are_short, one_meaning, one_writing, what_bytes_say,
    what_is_written, written_is_read,
};
pub use mode::Mode;

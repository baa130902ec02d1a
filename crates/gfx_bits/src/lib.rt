//! Bits read and written as a list: the floor of the entropy coders RLGR and SRL.
//!
//! It stands on nothing. A reader is seen as the bits that are left, a writer as the bits written.
#![tactic(auto)]

mod filling;
mod reader;
mod word;
mod writer;

pub use filling::what_bits_fill;
pub use reader::BitReader;
pub use word::{number_in, word_behind, zeros_behind};
pub use writer::{BitWriter, NoBits};

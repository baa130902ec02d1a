//! SRL, the entropy coder of a progressive tile's upgrades: values of places that were zero so far,
//! each with a number of bits, both ways.
//!
//! It stands on the lists of bits. The tile crates stand on it.
#![tactic(auto)]

mod laws;
mod params;
mod reader;
mod value;
mod writer;

pub use laws::{
    one_meaning, one_writing, reading_says, what_bits_say, what_is_written, written_is_read,
    written_is_short,
};
pub use reader::SrlReader;
pub use value::MOST_AHEAD;
pub use writer::SrlWriter;

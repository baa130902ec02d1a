//! The bands of ClearCodec: columns of at most 52 pixels, sent as places of two rings or as what differs
//! from a background, read into a picture and written from one.
//!
//! It stands on `gfx_clear_store`, which holds the rings; the whole codec above it reads bands between the
//! residual layer and the subcodecs, and writes them where a server chooses so.
#![tactic(auto)]

mod band;
mod bar;
mod column;
mod laws;
mod painting;
mod reading;
mod word;
mod writing;

pub use laws::{band_shows, written_is_read};
pub use painting::{DRAWN, paint_bands};
pub use reading::read_bands;
pub use writing::write_bands;

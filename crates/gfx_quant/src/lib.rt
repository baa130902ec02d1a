//! Bands, quantising and colour of RemoteFX: what stands between the coded values of a tile and its
//! wavelet transform, and between the samples of a transform and pixels.
//!
//! It stands on the wavelet transforms. The tile crates, the block grammar and the scripts stand on it.
#![tactic(auto)]

mod accepting;
mod bands;
mod coefficients;
mod colour;
mod colours;
mod dequantising;
mod greys;
mod halves;
mod quant;
mod quantising;
mod rounding;
mod rows;
mod setting;

pub use bands::{band_of, band_size, band_start, nth_band};
pub use coefficients::{dequantise, quantise, truncate};
pub use colour::{from_colour, to_colour};
pub use colours::from_colours;
pub use dequantising::dequantise_plane;
pub use gfx_dwt::Band;
pub use quant::{Component, LEAST_BASE, MOST_BITS, Quant, check_base, quant_from, quant_to};
pub use quantising::{cut_plane, quantise_plane, truncate_plane};
pub use rounding::{Rounding, nearest_is_near, round};
pub use rows::{to_colours, to_colours_narrow};
pub use setting::{Level, Levels, MOST_FALL, MOST_LEVELS, Setting};

//! The surfaces of a client or of a server, by their ids, within the limits on their number and
//! their size. Contracts see a finite map from ids to pictures.
//!
//! It stands on `gfx_surface`; the state of the client and of the planner above it hold one.
#![tactic(auto)]

mod composing;
mod copying;
mod drawing;
mod map;
mod output;
mod pixel_bytes;
mod place;
mod rectangle;
mod scan;
mod size;
mod table;

pub use map::SurfaceMap;
pub use place::{MOST_OUTPUT_SIDE, Output, Place};
pub use size::{count_cells, fits_size};

/// The most surfaces at one time. This project's own rule.
pub const MOST_SURFACES: usize = 1024;

/// The most cells of all surfaces together, part cells counted whole. This project's own rule.
pub const MOST_CELLS: u32 = 16384;

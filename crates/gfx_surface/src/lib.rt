//! A surface: a rectangle of pixels that messages draw on. Contracts see the picture that it shows,
//! row by row, and never how the pixels are kept.
//!
//! It stands on `gfx_base`; the surfaces of a client or a server stand in `gfx_surface_map` above it.
#![tactic(auto)]

mod cells;
mod colour;
mod copies;
mod crossing;
mod filling;
mod kept_cell;
mod lending;
mod log;
mod moves;
mod putting;
mod raw;
mod reading;
mod rows;
mod surface;
mod views;

pub use kept_cell::KeptCell;
pub use log::CellLog;
pub use surface::Surface;
pub use views::{StripMut, TileMut};

/// The longest side of a surface, in pixels. This project's own rule.
pub const MOST_SIDE: u16 = 8192;

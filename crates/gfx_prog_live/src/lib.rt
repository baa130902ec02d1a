//! Paints in passes at the server's end: which tiles a paint sends, which of them show and may still be raised, and the
//! data of their messages ([MS-RDPEGFX] 2.2.4.2). A tile is live until another change touches its cell.
//!
//! In the pipe it stands between the tiles at their source and their messages below (`gfx_tile_make`,
//! `gfx_prog_encode`) and the planner, which tells it of each change.
#![tactic(auto)]

mod keys;
mod live;
mod messages;
mod passes;
mod places;
mod tiles;

pub use passes::Passes;
pub use tiles::cell_pixels;

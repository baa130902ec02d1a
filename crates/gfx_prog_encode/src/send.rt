//! A tile on its way.
use gfx_base::{Cell, Rect};
use gfx_tile_make::SourceTile;

/// A tile that is sent: its cell on the surface, the part of the cell that it paints, in pixels of the
/// surface, its source, and the level that it is sent at. Level 0 is the first listed one, and the number
/// of listed levels names the last, which leaves nothing out.
#[derive(Drop)]
pub struct TileSend {
    pub cell: Cell,
    pub rect: Rect,
    pub tile: SourceTile,
    pub level: u8,
}

//! Where a record belongs.
ghost use Rattle.std.specs.Prelude.{◌≡◌};
ghost use Rattle.gfx_base.specs.Cells.{cell};
ghost use Rattle.gfx_prog_decode.specs.Progressive.{key_of};

use gfx_base::Cell;
use gfx_prog_block::TileHead;

/// A surface and an encoding context ([MS-RDPEGFX] 2.2.2.2, surfaceId and codecContextId).
#[derive(Clone, Copy, Debug, PartialEq, Eq)]
pub struct Place {
    pub surface: u16,
    pub context: u32,
}

/// A cell in a place: its column and its row, counted from 0 in cells of 64 by 64 pixels.
#[derive(Clone, Copy, Debug, PartialEq, Eq, Hash)]
pub struct Key {
    pub surface: u16,
    pub context: u32,
    pub x: u16,
    pub y: u16,
}

impl Place {
    /// The key of a tile's record.
    pub(crate) fn key(self, head: &TileHead) -> Key
        ensures { result ≡ key_of self head.now }
    {
        Key {
            surface: self.surface,
            context: self.context,
            x: head.x_idx,
            y: head.y_idx,
        }
    }
}

impl Key {
    /// The key's cell of its surface.
    pub(crate) fn cell(self) -> Cell
        ensures { result ≡ cell self.x self.y }
    {
        Cell {
            x: self.x,
            y: self.y,
        }
    }
}

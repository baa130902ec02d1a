ghost use Rattle.std.specs.Prelude.{refl};
ghost use Rattle.gfx_prog_block.specs.Shapes.{region_head};

use crate::area::Areas;
use crate::quants::{PackedQuants, RegionLevels};
use crate::tile::{Piece, Tiles};
use gfx_base::{Bytes, NoMemory};
use gfx_layout::Part;

/// The side of a tile, which each context and each region name ([MS-RDPEGFX] 2.2.4.2, tileSize).
pub const TILE_SIZE: u8 = 64;

/// The flag of a region whose tiles have the reduced transform (RFX_DWT_REDUCE_EXTRAPOLATE).
pub const REDUCED: u8 = 1;

/// Tiles, with what they are decoded by and the rectangles that they may paint
/// ([MS-RDPEGFX] 2.2.4.2, RFX_PROGRESSIVE_REGION).
#[derive(Debug, Drop)]
pub struct Region<'a> {
    pub flags: u8,
    pub rects: Areas,
    pub quants: PackedQuants,
    pub levels: RegionLevels,
    pub tiles: Tiles<'a>,
}

/// What stands first in a region.
#[derive(Clone, Copy, Debug)]
pub(crate) struct RegionHead {
    pub(crate) tile_size: u8,
    pub(crate) rects: u16,
    pub(crate) quants: u8,
    pub(crate) levels: u8,
    pub(crate) flags: u8,
    pub(crate) tiles: u16,
    pub(crate) tile_bytes: u32,
}

impl Part for RegionHead {
    ghost shape = { region_head };

    const SIZE: usize = 12;

    ghost SIZE = { 12 };

    ghost sized = { refl };

    #[inline(always)]
    #[tactic(auto, unfolding(gfx_layout::specs::Shape::part_in))]
    fn read(bytes: &[u8]) -> RegionHead {
        RegionHead {
            tile_size: bytes[0],
            rects: u16::read(&bytes[1..]),
            quants: bytes[3],
            levels: bytes[4],
            flags: bytes[5],
            tiles: u16::read(&bytes[6..]),
            tile_bytes: u32::read(&bytes[8..]),
        }
    }

    #[tactic(auto, unfolding(gfx_layout::specs::Shape::text))]
    fn put(self, out: &mut Bytes) -> Result<(), NoMemory> {
        let [rects_low, rects_high] = self.rects.to_le_bytes();
        let [tiles_low, tiles_high] = self.tiles.to_le_bytes();
        let [first, second, third, fourth] = self.tile_bytes.to_le_bytes();
        out.append(&[
            self.tile_size,
            rects_low,
            rects_high,
            self.quants,
            self.levels,
            self.flags,
            tiles_low,
            tiles_high,
            first,
            second,
            third,
            fourth,
        ])
    }
}

/// A region whose tiles aren't told apart yet.
#[derive(Debug, Drop)]
pub(crate) struct RegionBody<'a> {
    pub(crate) head: RegionHead,
    pub(crate) rects: Areas,
    pub(crate) quants: PackedQuants,
    pub(crate) levels: RegionLevels,
    pub(crate) tiles: Piece<'a>,
}

/// A context whose tile size isn't judged yet.
#[derive(Clone, Copy, Debug)]
pub(crate) struct ContextBody {
    pub(crate) id: u8,
    pub(crate) tile_size: u16,
    pub(crate) flags: u8,
}

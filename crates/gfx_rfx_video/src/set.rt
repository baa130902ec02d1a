ghost use Rattle.std.specs.Prelude.{refl};
ghost use Rattle.gfx_rfx_video.specs.Shapes.{set_head};

use crate::quants::VideoQuants;
use crate::tile::CodedTiles;
use gfx_base::{Bytes, NoMemory};
use gfx_layout::Part;
use gfx_prog_block::Piece;

/// Tiles, with what they are decoded by ([MS-RDPRFX] 2.2.2.3.4, TS_RFX_TILESET). Whether the
/// properties name an entropy coder is judged where the tile set is applied.
#[derive(Debug, Drop)]
pub struct TileSet<'a> {
    pub properties: u16,
    pub quants: VideoQuants,
    pub tiles: CodedTiles<'a>,
}

/// What a tile set says of itself behind the bytes that aren't looked at. Its tile size isn't looked at
/// either.
#[derive(Clone, Copy, Debug)]
pub(crate) struct SetHead {
    pub(crate) properties: u16,
    pub(crate) quants: u8,
    pub(crate) tile_size: u8,
    pub(crate) tiles: u16,
    pub(crate) tile_bytes: u32,
}

impl Part for SetHead {
    ghost shape = { set_head };

    const SIZE: usize = 10;

    ghost SIZE = { 10 };

    ghost sized = { refl };

    #[inline(always)]
    #[tactic(auto, unfolding(gfx_layout::specs::Shape::part_in))]
    fn read(bytes: &[u8]) -> SetHead {
        SetHead {
            properties: u16::read(bytes),
            quants: bytes[2],
            tile_size: bytes[3],
            tiles: u16::read(&bytes[4..]),
            tile_bytes: u32::read(&bytes[6..]),
        }
    }

    #[tactic(auto, unfolding(gfx_layout::specs::Shape::text))]
    fn put(self, out: &mut Bytes) -> Result<(), NoMemory> {
        let [properties_low, properties_high] = self.properties.to_le_bytes();
        let [tiles_low, tiles_high] = self.tiles.to_le_bytes();
        let [first, second, third, fourth] = self.tile_bytes.to_le_bytes();
        out.append(&[
            properties_low,
            properties_high,
            self.quants,
            self.tile_size,
            tiles_low,
            tiles_high,
            first,
            second,
            third,
            fourth,
        ])
    }
}

/// A tile set whose tiles aren't told apart yet.
#[derive(Debug, Drop)]
pub(crate) struct SetBody<'a> {
    pub(crate) head: SetHead,
    pub(crate) quants: VideoQuants,
    pub(crate) tiles: Piece<'a>,
}

//! The blocks of RemoteFX Progressive ([MS-RDPEGFX] 2.2.4.2), read from the data of a message and
//! written as such data.
//!
//! It is the grammar alone: which bytes are blocks, regions and tiles. In the pipe it stands between
//! the messages of `gfx_pdu` and the codec: a decoder reads all blocks of a message first and then
//! applies the regions; a server writes the blocks of what it encoded. What tiles mean is said above.
#![tactic(auto)]

mod area;
mod block;
mod frame;
mod kinds;
mod laws;
mod quants;
mod reading;
mod region;
mod region_reading;
mod tile;
mod tile_reading;
mod tile_writing;
mod writing;

pub use area::{Area, Areas};
pub use block::{Block, Blocks};
pub use kinds::{BlockType, TileType};
pub use laws::{
    blocks_have_one_spelling, what_is_read_as_blocks_is_spelled, what_is_spelled_as_blocks_is_read,
    what_is_written_as_blocks_is_spelled,
};
pub use quants::{PackedQuant, PackedQuants, RegionLevel, RegionLevels};
pub use reading::read_blocks;
pub use region::{REDUCED, Region, TILE_SIZE};
pub use tile::{DIFFERENCE, FirstPass, NO_QUALITY, Piece, Tile, TileHead, Tiles, UpgradePass};
pub use writing::write_blocks;

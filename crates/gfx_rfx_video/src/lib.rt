//! RemoteFX video (codec 3, [MS-RDPRFX]): the data of a message, applied to a rectangle of a surface whole or not at all,
//! and the data of a server's message of tiles.
//!
//! It stands on the blocks and the rectangles of the progressive codec, on its transforms, quantising and tiles at their
//! source, on RLGR, of whose two modes a tile set names one for all its tiles, and on surfaces. The grammar alone, which
//! bytes are headers, regions, tile sets and tiles, can be read without a surface.
#![tactic(auto)]

mod applying;
mod block;
mod block_reading;
mod canvas;
mod coding;
mod colours;
mod decoder;
mod frame;
mod header_reading;
mod kinds;
mod laws;
mod message;
mod placing;
mod planes;
mod quants;
mod running;
mod set;
mod set_reading;
mod showing;
mod tile;
mod tile_reading;
mod video_tile;

pub use block::{VideoBlock, VideoBlocks};
pub use block_reading::read_video_blocks;
pub use decoder::{VideoDecoder, decode_video};
pub use gfx_prog_block::{Area, Areas, Piece, TileHead};
pub use gfx_rlgr::Mode as Entropy;
pub use kinds::{BlockType, TILE};
pub use laws::{
    plain_codes_are_short, tile_codes_are_direct, video_messages_are_read,
    video_messages_show_direct,
};
pub use message::video_message;
pub use quants::{VideoQuant, VideoQuants};
pub use set::TileSet;
pub use tile::{CodedTile, CodedTiles};
pub use video_tile::{VideoTile, VideoTiles};

//! Tiles on their way to a client.
ghost use Rattle.std.specs.Prelude.{◌≡◌, ◌++◌, ◌∷◌, [], length, OnOk, OnErr};

use gfx_base::NoMemory;
use gfx_tile_make::SourceTile;
use std::alloc::Global;
use std::marker::Model;

/// A tile that is sent: its place, in tiles of 64 pixels from the corner of the message's rectangle, and its source.
#[derive(Drop)]
pub struct VideoTile {
    pub x: u16,
    pub y: u16,
    pub tile: SourceTile,
}

/// Tiles, in the order of a message. Contracts see the list.
#[derive(Drop)]
pub struct VideoTiles {
    tiles: Vec<VideoTile>,
}

impl Model for VideoTiles {
    ghost use Rattle.std.specs.Prelude.{List};
    ghost use Rattle.gfx_rfx_video.specs.declared.video_tile.VideoTile.{VideoTile};

    ghost Value = { List VideoTile };

    ghost view = { λ t. t.tiles.items };
}

impl VideoTiles {
    /// No tiles. It takes no memory.
    pub fn new(alloc: Global) -> VideoTiles
        ensures { result ≡ [] }
    {
        VideoTiles {
            tiles: Vec::new(alloc),
        }
    }

    /// Puts a tile at the end.
    pub fn push(&mut self, tile: VideoTile) -> Result<(), NoMemory>
        ensures ok { OnOk result (self.new ≡ self.old ++ tile ∷ []) }
        ensures err { OnErr result (self.new ≡ self.old) }
    {
        self.tiles.push(tile)?;
        Ok(())
    }

    pub fn len(&self) -> usize
        ensures { result ≡ length self.now }
    {
        self.tiles.len()
    }

    pub fn as_slice(&self) -> &[VideoTile]
        ensures { result.now ≡ self.now }
    {
        self.tiles.as_slice()
    }
}

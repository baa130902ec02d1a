//! What a tile set paints: tiles of 64 by 64 pixels ([MS-RDPRFX] 2.2.2.3.4.1).

ghost use Rattle.std.specs.Prelude.{◌≡◌, ◌++◌, ◌∷◌, ◌==◌, [], length, OnOk, OnErr};
ghost use Rattle.std.specs.List.{slice_get};
ghost use Rattle.std.specs.Option.{option_copied};

use gfx_base::NoMemory;
use gfx_prog_block::{Piece, TileHead};
use std::alloc::Global;
use std::marker::Model;

/// A tile with its codes, one for each component, by the entropy coder that the tile set names. Its place is in tiles of
/// 64 pixels from the corner of the message's rectangle.
#[derive(Debug, Drop)]
pub struct CodedTile<'a> {
    pub head: TileHead,
    pub y: Piece<'a>,
    pub cb: Piece<'a>,
    pub cr: Piece<'a>,
}

/// Tiles, in the order of a tile set. Contracts see the list.
#[derive(Debug, Drop)]
pub struct CodedTiles<'a> {
    tiles: Vec<CodedTile<'a>>,
}

impl<'a> Model for CodedTiles<'a> {
    ghost use Rattle.std.specs.Prelude.{List};
    ghost use Rattle.gfx_rfx_video.specs.declared.tile.CodedTile.{CodedTile};

    ghost Value = { List CodedTile };

    ghost view = { λ t. t.tiles.items };
}

impl<'a> CodedTiles<'a> {
    /// No tiles. It takes no memory.
    pub fn new(alloc: Global) -> CodedTiles<'a>
        ensures { result ≡ [] }
    {
        CodedTiles {
            tiles: Vec::new(alloc),
        }
    }

    /// Puts a tile at the end.
    pub fn push(&mut self, tile: CodedTile<'a>) -> Result<(), NoMemory>
        ensures ok { OnOk result (self.new ≡ self.old ++ tile.entry ∷ []) }
        ensures err { OnErr result (self.new ≡ self.old) }
    {
        self.tiles.push(tile)?;
        Ok(())
    }

    pub fn len(&self) -> usize
        ensures { result ≡ length self.now }
    {
        self.tiles.len()
    }

    pub fn is_empty(&self) -> bool
        ensures { result ≡ (length self.now == 0) }
    {
        self.tiles.is_empty()
    }

    /// The tile at a place, counted from 0, if there is one.
    pub fn get(&self, at: usize) -> Option<&CodedTile<'a>>
        ensures { option_copied result ≡ slice_get self.now at }
    {
        self.tiles.get(at)
    }

    pub fn as_slice(&self) -> &[CodedTile<'a>]
        ensures { result.now ≡ self.now }
    {
        self.tiles.as_slice()
    }
}

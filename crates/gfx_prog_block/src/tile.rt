//! What a region paints: tiles of 64 by 64 pixels, each by one pass ([MS-RDPEGFX] 2.2.4.2).

ghost use Rattle.std.specs.Prelude.{◌≡◌, ◌++◌, ◌∷◌, ◌==◌, [], length, refl, OnOk, OnErr};
ghost use Rattle.std.specs.List.{slice_get};
ghost use Rattle.std.specs.Option.{option_copied};
ghost use Rattle.gfx_prog_block.specs.Shapes.{tile_head};
ghost use Rattle.gfx_prog_block.specs.Spelling.{tile_type};

use crate::kinds::TileType;
use gfx_base::{Bytes, NoMemory};
use gfx_layout::Part;
use std::alloc::Global;
use std::marker::Model;

/// The flag of a simple or first tile that is added to what is kept of its cell
/// (RFX_TILE_DIFFERENCE).
pub const DIFFERENCE: u8 = 1;

/// The quality of a tile that leaves out no bits.
pub const NO_QUALITY: u8 = 0xFF;

/// Bytes that stay where they are, in a message or with an encoder. Contracts see the bytes.
#[derive(Debug, Drop)]
pub struct Piece<'a> {
    bytes: &'a [u8],
}

impl<'a> Model for Piece<'a> {
    ghost use Rattle.std.specs.Prelude.{ℕ, List};

    ghost Value = { List ℕ };

    ghost view = { λ p. p.bytes.now };
}

impl<'a> Piece<'a> {
    #[inline(always)]
    pub fn new(bytes: &'a [u8]) -> Piece<'a>
        ensures { result ≡ bytes.now }
    {
        Piece { bytes }
    }

    #[inline(always)]
    pub fn as_slice(&self) -> &'a [u8]
        ensures { result.now ≡ self.now }
    {
        self.bytes
    }
}

/// What stands first in every tile: which quants of the region its components take, and its cell.
#[derive(Clone, Copy, Debug, PartialEq, Eq)]
pub struct TileHead {
    pub quant_y: u8,
    pub quant_cb: u8,
    pub quant_cr: u8,
    pub x_idx: u16,
    pub y_idx: u16,
}

impl Part for TileHead {
    ghost shape = { tile_head };

    const SIZE: usize = 7;

    ghost SIZE = { 7 };

    ghost sized = { refl };

    #[inline(always)]
    #[tactic(auto, unfolding(gfx_layout::specs::Shape::part_in))]
    fn read(bytes: &[u8]) -> TileHead {
        TileHead {
            quant_y: bytes[0],
            quant_cb: bytes[1],
            quant_cr: bytes[2],
            x_idx: u16::read(&bytes[3..]),
            y_idx: u16::read(&bytes[5..]),
        }
    }

    #[tactic(auto, unfolding(gfx_layout::specs::Shape::text))]
    fn put(self, out: &mut Bytes) -> Result<(), NoMemory> {
        let [x_low, x_high] = self.x_idx.to_le_bytes();
        let [y_low, y_high] = self.y_idx.to_le_bytes();
        out.append(&[
            self.quant_y,
            self.quant_cb,
            self.quant_cr,
            x_low,
            x_high,
            y_low,
            y_high,
        ])
    }
}

/// The data of a simple or first tile: a code for each component, and a tail without meaning.
#[derive(Debug, Drop)]
pub struct FirstPass<'a> {
    pub y: Piece<'a>,
    pub cb: Piece<'a>,
    pub cr: Piece<'a>,
    pub tail: Piece<'a>,
}

/// The data of an upgrade: for each component a code of signs and values, and raw bits.
#[derive(Debug, Drop)]
pub struct UpgradePass<'a> {
    pub y_srl: Piece<'a>,
    pub y_raw: Piece<'a>,
    pub cb_srl: Piece<'a>,
    pub cb_raw: Piece<'a>,
    pub cr_srl: Piece<'a>,
    pub cr_raw: Piece<'a>,
}

/// One pass over a tile.
#[derive(Debug, Drop)]
pub enum Tile<'a> {
    /// RFX_PROGRESSIVE_TILE_SIMPLE: a whole tile at once.
    Simple {
        head: TileHead,
        flags: u8,
        pass: FirstPass<'a>,
    },
    /// RFX_PROGRESSIVE_TILE_FIRST: a tile at the quality of a level.
    First {
        head: TileHead,
        flags: u8,
        quality: u8,
        pass: FirstPass<'a>,
    },
    /// RFX_PROGRESSIVE_TILE_UPGRADE: what a better level adds.
    Upgrade {
        head: TileHead,
        quality: u8,
        pass: UpgradePass<'a>,
    },
}

impl<'a> Tile<'a> {
    /// Which kind of tile it is.
    pub fn kind(&self) -> TileType
        ensures { result ≡ tile_type self.now }
    {
        match self {
            Tile::Simple { .. } => TileType::Simple,
            Tile::First { .. } => TileType::First,
            Tile::Upgrade { .. } => TileType::Upgrade,
        }
    }
}

/// Tiles, in the order of a region. Contracts see the list.
#[derive(Debug, Drop)]
pub struct Tiles<'a> {
    tiles: Vec<Tile<'a>>,
}

impl<'a> Model for Tiles<'a> {
    ghost use Rattle.std.specs.Prelude.{List};
    ghost use Rattle.gfx_prog_block.specs.declared.tile.Tile.{Tile};

    ghost Value = { List Tile };

    ghost view = { λ t. t.tiles.items };
}

impl<'a> Tiles<'a> {
    /// No tiles. It takes no memory.
    pub fn new(alloc: Global) -> Tiles<'a>
        ensures { result ≡ [] }
    {
        Tiles {
            tiles: Vec::new(alloc),
        }
    }

    /// Puts a tile at the end.
    pub fn push(&mut self, tile: Tile<'a>) -> Result<(), NoMemory>
        ensures ok { OnOk result (self.new ≡ self.old ++ tile.entry ∷ []) }
        ensures err { OnErr result (self.new ≡ self.old) }
    {
        self.tiles.push(tile)?;
        Ok(())
    }

    pub fn len(&self) -> usize
        ensures { result ≡ length self.now }
    {
        self.tiles.len()
    }

    pub fn is_empty(&self) -> bool
        ensures { result ≡ (length self.now == 0) }
    {
        self.tiles.is_empty()
    }

    /// The tile at a place, counted from 0, if there is one.
    pub fn get(&self, at: usize) -> Option<&Tile<'a>>
        ensures { option_copied result ≡ slice_get self.now at }
    {
        self.tiles.get(at)
    }

    pub fn as_slice(&self) -> &[Tile<'a>]
        ensures { result.now ≡ self.now }
    {
        self.tiles.as_slice()
    }
}

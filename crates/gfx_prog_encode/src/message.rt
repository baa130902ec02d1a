//! The data of messages.
ghost use Rattle.std.specs.Prelude.{◌≡◌, ◌≤◌, IfOk, length, map};
ghost use Rattle.std.specs.List.{All, AllByRecursion};
ghost use Rattle.gfx_prog_block.specs.Fitting.{IsSpellableTile};
ghost use Rattle.gfx_prog_block.specs.Spelling.{spelling};
ghost use Rattle.gfx_prog_encode.specs.Inside.{AreRaised, AreShort, AreShortPasses, all_coded, all_passes, coded, passes};
ghost use Rattle.gfx_prog_encode.specs.Messages.{blocks_of, first_tile, flags_of, head_of, improve_data, paint_data, quality_of, region_of, upgrade_tile};

use crate::MOST_SENDS;
use crate::data::{FirstData, UpgradeData, first_data, upgrade_data};
use crate::region::region_of;
use crate::send::TileSend;
use gfx_base::{Bytes, NoMemory};
use gfx_prog_block::{
    Block, Blocks, DIFFERENCE, FirstPass, NO_QUALITY, Piece, Region, Tile, TileHead, Tiles,
    UpgradePass, write_blocks,
};
use gfx_quant::Setting;
use gfx_tile_make::SourceTile;
use std::alloc::Global;

/// The data of a message that paints tiles at the first level, in an encoding context of their own. The
/// index counts the progressive messages of a server from 0.
pub fn paint_message(
    alloc: Global,
    setting: &Setting,
    sends: &[TileSend],
    index: u32,
) -> Result<Bytes, NoMemory>
    requires few { length sends.now ≤ MOST_SENDS }
    ensures { IfOk result (λ bytes. bytes ≡ paint_data setting.now sends.now index) }
{
    let codes = first_codes(alloc, sends)?;
    let tiles = first_tiles(alloc, sends, codes.as_slice())?;
    write_message(alloc, setting, sends, tiles, index)
}

/// The data of a message that raises tiles to their levels.
pub fn improve_message(
    alloc: Global,
    setting: &Setting,
    sends: &[TileSend],
    index: u32,
) -> Result<Bytes, NoMemory>
    requires few { length sends.now ≤ MOST_SENDS }
    requires raised { AreRaised sends.now }
    ensures { IfOk result (λ bytes. bytes ≡ improve_data setting.now sends.now index) }
{
    let codes = upgrade_codes(alloc, sends)?;
    let tiles = upgrade_tiles(alloc, setting, sends, codes.as_slice())?;
    write_message(alloc, setting, sends, tiles, index)
}

/// The codes of tiles at the first level.
fn first_codes(alloc: Global, sends: &[TileSend]) -> Result<Vec<FirstData>, NoMemory>
    ensures value { IfOk result (λ codes. codes.items ≡ all_coded sends.now) }
    ensures short { IfOk result (λ codes. All AreShort codes.items) }
{
    let mut codes = Vec::new(alloc);
    'sends: for send in sends {
        codes.push(first_data(alloc, &send.tile)?)?;
    }
    Ok(codes)
}

/// What raises tiles to their levels.
fn upgrade_codes(alloc: Global, sends: &[TileSend]) -> Result<Vec<UpgradeData>, NoMemory>
    requires { AreRaised sends.now }
    ensures value { IfOk result (λ codes. codes.items ≡ all_passes sends.now) }
    ensures short { IfOk result (λ codes. All AreShortPasses codes.items) }
{
    let mut codes = Vec::new(alloc);
    'sends: for send in sends {
        codes.push(upgrade_data(alloc, &send.tile, send.level)?)?;
    }
    Ok(codes)
}

/// The tiles of a message that paints.
fn first_tiles<'a>(
    alloc: Global,
    sends: &[TileSend],
    codes: &'a [FirstData],
) -> Result<Tiles<'a>, NoMemory>
    requires value { codes.now ≡ all_coded sends.now }
    requires short { All AreShort codes.now }
    ensures value { IfOk result (λ tiles. tiles ≡ map first_tile sends.now) }
    ensures short { IfOk result (λ tiles. AllByRecursion IsSpellableTile tiles) }
{
    let mut tiles = Tiles::new(alloc);
    'sends: for at in 0..sends.len() {
        tiles.push(first_tile(&sends[at], &codes[at]))?;
    }
    Ok(tiles)
}

/// The tiles of a message that improves.
fn upgrade_tiles<'a>(
    alloc: Global,
    setting: &Setting,
    sends: &[TileSend],
    codes: &'a [UpgradeData],
) -> Result<Tiles<'a>, NoMemory>
    requires value { codes.now ≡ all_passes sends.now }
    requires short { All AreShortPasses codes.now }
    ensures value { IfOk result (λ tiles. tiles ≡ map (upgrade_tile setting.now) sends.now) }
    ensures short { IfOk result (λ tiles. AllByRecursion IsSpellableTile tiles) }
{
    let mut tiles = Tiles::new(alloc);
    'sends: for at in 0..sends.len() {
        tiles.push(upgrade_tile(setting, &sends[at], &codes[at]))?;
    }
    Ok(tiles)
}

/// A tile at the first level.
#[tactic(auto, unfolding(crate::specs::Inside::coded, crate::specs::Messages::first_pass))]
fn first_tile<'a>(send: &TileSend, code: &'a FirstData) -> Tile<'a>
    requires value { code.now ≡ coded send.now.tile }
    requires short { AreShort code.now }
    ensures value { result ≡ first_tile send.now }
    ensures short { IsSpellableTile result }
{
    Tile::First {
        head: head_of(send),
        flags: flags_of(&send.tile),
        quality: 0,
        pass: FirstPass {
            y: Piece::new(code.y.as_slice()),
            cb: Piece::new(code.cb.as_slice()),
            cr: Piece::new(code.cr.as_slice()),
            tail: Piece::new(&[]),
        },
    }
}

/// What raises a tile.
#[tactic(auto, unfolding(crate::specs::Inside::passes, crate::specs::Inside::pass_to, crate::specs::Messages::upgrade_pass))]
fn upgrade_tile<'a>(setting: &Setting, send: &TileSend, code: &'a UpgradeData) -> Tile<'a>
    requires value { code.now ≡ passes send.now.tile send.now.level }
    requires short { AreShortPasses code.now }
    ensures value { result ≡ upgrade_tile setting.now send.now }
    ensures short { IsSpellableTile result }
{
    Tile::Upgrade {
        head: head_of(send),
        quality: quality_of(setting, send.level),
        pass: UpgradePass {
            y_srl: Piece::new(code.y.srl.as_slice()),
            y_raw: Piece::new(code.y.raw.as_slice()),
            cb_srl: Piece::new(code.cb.srl.as_slice()),
            cb_raw: Piece::new(code.cb.raw.as_slice()),
            cr_srl: Piece::new(code.cr.srl.as_slice()),
            cr_raw: Piece::new(code.cr.raw.as_slice()),
        },
    }
}

/// The cell of a tile, and the quants of its components.
fn head_of(send: &TileSend) -> TileHead
    ensures { result ≡ head_of send.now }
{
    TileHead {
        quant_y: 0,
        quant_cb: 1,
        quant_cr: 2,
        x_idx: send.cell.x,
        y_idx: send.cell.y,
    }
}

/// The flags of a tile: whether it goes on what is kept of its cell.
fn flags_of(tile: &SourceTile) -> u8
    ensures { result ≡ flags_of tile.now }
{
    if tile.is_difference() { DIFFERENCE } else { 0 }
}

/// The quality that names a level.
fn quality_of(setting: &Setting, level: u8) -> u8
    ensures { result ≡ quality_of setting.now level }
{
    if usize::from(level) == setting.levels.len() {
        NO_QUALITY
    } else {
        level
    }
}

/// The data of a message of these tiles.
fn write_message(
    alloc: Global,
    setting: &Setting,
    sends: &[TileSend],
    tiles: Tiles<'_>,
    index: u32,
) -> Result<Bytes, NoMemory>
    requires few { length sends.now ≤ MOST_SENDS }
    requires each { length tiles ≡ length sends.now }
    requires short { AllByRecursion IsSpellableTile tiles }
    ensures { IfOk result (λ bytes. bytes ≡ spelling (blocks_of (region_of setting.now sends.now tiles.entry) index)) }
{
    let region = region_of(alloc, setting, sends, tiles)?;
    let blocks = blocks_of(alloc, region, index)?;
    let mut data = Bytes::new(alloc);
    write_blocks(&blocks, &mut data)?;
    Ok(data)
}

/// The blocks of a message of this region.
fn blocks_of<'a>(alloc: Global, region: Region<'a>, index: u32) -> Result<Blocks<'a>, NoMemory>
    ensures { IfOk result (λ all. all ≡ blocks_of region.entry index) }
{
    let mut blocks = Blocks::new(alloc);
    blocks.push(Block::Sync)?;
    blocks.push(Block::Context { id: 1, flags: 0 })?;
    blocks.push(Block::FrameBegin { index, regions: 1 })?;
    blocks.push(Block::Region(region))?;
    blocks.push(Block::FrameEnd)?;
    Ok(blocks)
}

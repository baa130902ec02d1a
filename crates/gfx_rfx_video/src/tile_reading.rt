//! Tiles, read from the bytes of a tile set.

ghost use Rattle.gfx_base.specs.Outcome.{Gives, Says};
ghost use Rattle.gfx_layout.specs.Reading.{read_whole, take_each};
ghost use Rattle.gfx_rfx_video.specs.Layouts.{tile};
ghost use Rattle.gfx_rfx_video.specs.BlockReading.{tile_at, due_tile, tiles_of};

use crate::frame::read_frame;
use crate::kinds::TILE;
use crate::tile::{CodedTile, CodedTiles};
use gfx_base::{Cause, Refusal};
use gfx_layout::{Fields, Stop};
use gfx_prog_block::Piece;
use std::alloc::Global;

/// Reads the body of TS_RFX_TILE.
#[tactic(auto, unfolding(gfx_layout::specs::Reading::read_whole, gfx_layout::specs::Reading::read, gfx_base::specs::Results::and_then))]
fn read_body<'a>(body: &'a [u8]) -> Result<CodedTile<'a>, Stop>
    ensures { Says (λ found. found) result (read_whole tile body.now) }
{
    let mut fields = Fields::new(body);
    let head = fields.one()?;
    let y = fields.u16()?;
    let cb = fields.u16()?;
    let cr = fields.u16()?;
    let found = CodedTile {
        head,
        y: Piece::new(fields.bytes(usize::from(y))?),
        cb: Piece::new(fields.bytes(usize::from(cb))?),
        cr: Piece::new(fields.bytes(usize::from(cr))?),
    };
    fields.end()?;
    Ok(found)
}

/// Reads the next tile.
#[tactic(auto, unfolding(crate::specs::BlockReading::tile_at, gfx_base::specs::Results::and_then))]
fn read_tile<'a>(fields: &mut Fields<'a>) -> Result<CodedTile<'a>, Stop>
    ensures { Says (λ found. (found, fields.new)) result (tile_at fields.old) }
{
    let frame = read_frame(fields)?;
    if frame.kind != TILE {
        return Err(Stop::Rule(Refusal::BlockUnknown));
    }
    read_body(frame.body.as_slice())
}

/// Reads a tile that is due.
#[tactic(auto, unfolding(crate::specs::BlockReading::due_tile, gfx_base::specs::Results::and_then))]
fn read_due<'a>(fields: &mut Fields<'a>) -> Result<CodedTile<'a>, Stop>
    ensures { Says (λ found. (found, fields.new)) result (due_tile fields.old) }
{
    if fields.is_empty() {
        return Err(Stop::Rule(Refusal::TileCount));
    }
    read_tile(fields)
}

/// Reads so many tiles.
#[tactic(auto, using(gfx_layout::proofs::EachLoops::each_loops))]
fn read_each<'a>(
    alloc: Global,
    fields: &mut Fields<'a>,
    count: usize,
) -> Result<CodedTiles<'a>, Cause<Stop>>
    ensures { Gives (λ tiles. (tiles, fields.new)) result (take_each due_tile count fields.old) }
{
    let mut tiles = CodedTiles::new(alloc);
    'tiles: for _ in 0..count {
        let tile = read_due(fields)?;
        tiles.push(tile)?;
    }
    Ok(tiles)
}

/// Reads so many tiles, which have to be all of these bytes.
#[tactic(auto, unfolding(crate::specs::BlockReading::tiles_of, gfx_base::specs::Results::and_then))]
pub(crate) fn read_tiles<'a>(
    alloc: Global,
    bytes: &'a [u8],
    count: usize,
) -> Result<CodedTiles<'a>, Cause<Stop>>
    ensures { Gives (λ tiles. tiles) result (tiles_of count bytes.now) }
{
    let mut fields = Fields::new(bytes);
    let tiles = read_each(alloc, &mut fields, count)?;
    if !fields.is_empty() {
        return Err(Cause::Refused(Stop::Rule(Refusal::TileCount)));
    }
    Ok(tiles)
}

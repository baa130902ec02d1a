//! Tiles, read from the bytes of a region.

ghost use Rattle.gfx_base.specs.Outcome.{Gives, Says};
ghost use Rattle.gfx_layout.specs.Reading.{read_whole, take_each};
ghost use Rattle.gfx_prog_block.specs.Layouts.{simple_tile, first_tile, upgrade_tile, tile_layout};
ghost use Rattle.gfx_prog_block.specs.Reading.{tile_at, due_tile, tiles_of};

use crate::frame::read_frame;
use crate::kinds::TileType;
use crate::tile::{FirstPass, Piece, Tile, Tiles, UpgradePass};
use gfx_base::{Cause, Refusal};
use gfx_layout::{Fields, Stop};
use std::alloc::Global;

/// Reads the body of RFX_PROGRESSIVE_TILE_SIMPLE.
#[tactic(auto, unfolding(gfx_layout::specs::Reading::read_whole, gfx_layout::specs::Reading::read, gfx_base::specs::Results::and_then))]
fn read_simple<'a>(body: &'a [u8]) -> Result<Tile<'a>, Stop>
    ensures { Says (λ tile. tile) result (read_whole simple_tile body.now) }
{
    let mut fields = Fields::new(body);
    let head = fields.one()?;
    let flags = fields.u8()?;
    let y = fields.u16()?;
    let cb = fields.u16()?;
    let cr = fields.u16()?;
    let tail = fields.u16()?;
    let pass = FirstPass {
        y: Piece::new(fields.bytes(usize::from(y))?),
        cb: Piece::new(fields.bytes(usize::from(cb))?),
        cr: Piece::new(fields.bytes(usize::from(cr))?),
        tail: Piece::new(fields.bytes(usize::from(tail))?),
    };
    fields.end()?;
    Ok(Tile::Simple { head, flags, pass })
}

/// Reads the body of RFX_PROGRESSIVE_TILE_FIRST.
#[tactic(auto, unfolding(gfx_layout::specs::Reading::read_whole, gfx_layout::specs::Reading::read, gfx_base::specs::Results::and_then))]
fn read_first<'a>(body: &'a [u8]) -> Result<Tile<'a>, Stop>
    ensures { Says (λ tile. tile) result (read_whole first_tile body.now) }
{
    let mut fields = Fields::new(body);
    let head = fields.one()?;
    let flags = fields.u8()?;
    let quality = fields.u8()?;
    let y = fields.u16()?;
    let cb = fields.u16()?;
    let cr = fields.u16()?;
    let tail = fields.u16()?;
    let pass = FirstPass {
        y: Piece::new(fields.bytes(usize::from(y))?),
        cb: Piece::new(fields.bytes(usize::from(cb))?),
        cr: Piece::new(fields.bytes(usize::from(cr))?),
        tail: Piece::new(fields.bytes(usize::from(tail))?),
    };
    fields.end()?;
    Ok(Tile::First {
        head,
        flags,
        quality,
        pass,
    })
}

/// Reads the body of RFX_PROGRESSIVE_TILE_UPGRADE.
#[tactic(auto, unfolding(gfx_layout::specs::Reading::read_whole, gfx_layout::specs::Reading::read, gfx_base::specs::Results::and_then))]
fn read_upgrade<'a>(body: &'a [u8]) -> Result<Tile<'a>, Stop>
    ensures { Says (λ tile. tile) result (read_whole upgrade_tile body.now) }
{
    let mut fields = Fields::new(body);
    let head = fields.one()?;
    let quality = fields.u8()?;
    let y_srl = fields.u16()?;
    let y_raw = fields.u16()?;
    let cb_srl = fields.u16()?;
    let cb_raw = fields.u16()?;
    let cr_srl = fields.u16()?;
    let cr_raw = fields.u16()?;
    let pass = UpgradePass {
        y_srl: Piece::new(fields.bytes(usize::from(y_srl))?),
        y_raw: Piece::new(fields.bytes(usize::from(y_raw))?),
        cb_srl: Piece::new(fields.bytes(usize::from(cb_srl))?),
        cb_raw: Piece::new(fields.bytes(usize::from(cb_raw))?),
        cr_srl: Piece::new(fields.bytes(usize::from(cr_srl))?),
        cr_raw: Piece::new(fields.bytes(usize::from(cr_raw))?),
    };
    fields.end()?;
    Ok(Tile::Upgrade {
        head,
        quality,
        pass,
    })
}

/// Reads the body of a tile of this type.
fn read_body<'a>(kind: TileType, body: &'a [u8]) -> Result<Tile<'a>, Stop>
    ensures { Says (λ tile. tile) result (read_whole (tile_layout kind) body.now) }
{
    match kind {
        TileType::Simple => read_simple(body),
        TileType::First => read_first(body),
        TileType::Upgrade => read_upgrade(body),
    }
}

/// Reads the next tile.
#[tactic(auto, unfolding(crate::specs::Reading::tile_at, gfx_base::specs::Results::and_then))]
fn read_tile<'a>(fields: &mut Fields<'a>) -> Result<Tile<'a>, Stop>
    ensures { Says (λ tile. (tile, fields.new)) result (tile_at fields.old) }
{
    let frame = read_frame(fields)?;
    let Some(kind) = TileType::from_number(frame.kind) else {
        return Err(Stop::Rule(Refusal::BlockUnknown));
    };
    read_body(kind, frame.body.as_slice())
}

/// Reads a tile that is due.
#[tactic(auto, unfolding(crate::specs::Reading::due_tile, gfx_base::specs::Results::and_then))]
fn read_due<'a>(fields: &mut Fields<'a>) -> Result<Tile<'a>, Stop>
    ensures { Says (λ tile. (tile, fields.new)) result (due_tile fields.old) }
{
    if fields.is_empty() {
        return Err(Stop::Rule(Refusal::TileCount));
    }
    read_tile(fields)
}

/// Reads so many tiles.
#[tactic(auto, using(gfx_layout::proofs::EachLoops::each_loops))]
fn read_each<'a>(
    alloc: Global,
    fields: &mut Fields<'a>,
    count: usize,
) -> Result<Tiles<'a>, Cause<Stop>>
    ensures { Gives (λ tiles. (tiles, fields.new)) result (take_each due_tile count fields.old) }
{
    let mut tiles = Tiles::new(alloc);
    'tiles: for _ in 0..count {
        let tile = read_due(fields)?;
        tiles.push(tile)?;
    }
    Ok(tiles)
}

/// Reads so many tiles, which have to be all of these bytes.
#[tactic(auto, unfolding(crate::specs::Reading::tiles_of, gfx_base::specs::Results::and_then))]
pub(crate) fn read_tiles<'a>(
    alloc: Global,
    bytes: &'a [u8],
    count: usize,
) -> Result<Tiles<'a>, Cause<Stop>>
    ensures { Gives (λ tiles. tiles) result (tiles_of count bytes.now) }
{
    let mut fields = Fields::new(bytes);
    let tiles = read_each(alloc, &mut fields, count)?;
    if !fields.is_empty() {
        return Err(Cause::Refused(Stop::Rule(Refusal::TileCount)));
    }
    Ok(tiles)
}

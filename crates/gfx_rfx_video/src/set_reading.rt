//! Regions and tile sets, read from their bodies.

ghost use Rattle.gfx_base.specs.Outcome.{Gives};
ghost use Rattle.gfx_layout.specs.Reading.{read_whole};
ghost use Rattle.gfx_rfx_video.specs.Layouts.{region, tile_set};
ghost use Rattle.gfx_rfx_video.specs.BlockReading.{set_of};

use crate::block::VideoBlock;
use crate::set::{SetBody, SetHead, TileSet};
use crate::tile_reading::read_tiles;
use gfx_base::Cause;
use gfx_layout::{Fields, Stop};
use gfx_prog_block::Piece;
use std::alloc::Global;

/// Reads the body of TS_RFX_REGION: its rectangles, between three bytes and four that aren't looked at.
#[tactic(auto, unfolding(gfx_layout::specs::Reading::read_whole, gfx_layout::specs::Reading::read, gfx_base::specs::Results::and_then))]
pub(crate) fn read_region<'a>(alloc: Global, body: &[u8]) -> Result<VideoBlock<'a>, Cause<Stop>>
    ensures { Gives (λ block. block) result (read_whole region body.now) }
{
    let mut fields = Fields::new(body);
    fields.bytes(3)?;
    let rects = fields.list(alloc)?;
    fields.bytes(4)?;
    fields.end()?;
    Ok(VideoBlock::Region(rects))
}

/// Reads TS_RFX_TILESET, all but its tiles; six bytes aren't looked at.
#[tactic(auto, unfolding(gfx_layout::specs::Reading::read_whole, gfx_layout::specs::Reading::read, gfx_base::specs::Results::and_then))]
fn read_set_body<'a>(alloc: Global, body: &'a [u8]) -> Result<SetBody<'a>, Cause<Stop>>
    ensures { Gives (λ parts. parts) result (read_whole tile_set body.now) }
{
    let mut fields = Fields::new(body);
    fields.bytes(6)?;
    let head: SetHead = fields.one()?;
    let parts = SetBody {
        head,
        quants: fields.items(alloc, usize::from(head.quants))?,
        tiles: Piece::new(fields.bytes(head.tile_bytes as usize)?),
    };
    fields.end()?;
    Ok(parts)
}

/// Reads the body of TS_RFX_TILESET.
#[tactic(auto, unfolding(crate::specs::BlockReading::set_of, gfx_base::specs::Results::and_then))]
pub(crate) fn read_set<'a>(alloc: Global, body: &'a [u8]) -> Result<TileSet<'a>, Cause<Stop>>
    ensures { Gives (λ found. found) result (set_of body.now) }
{
    let parts = read_set_body(alloc, body)?;
    let tiles = read_tiles(alloc, parts.tiles.as_slice(), usize::from(parts.head.tiles))?;
    Ok(TileSet {
        properties: parts.head.properties,
        quants: parts.quants,
        tiles,
    })
}

//! Contexts and regions, read from their bodies.

ghost use Rattle.std.specs.Prelude.{◌≡◌};
ghost use Rattle.gfx_base.specs.Outcome.{Gives, Says};
ghost use Rattle.gfx_layout.specs.Reading.{read_whole};
ghost use Rattle.gfx_prog_block.specs.Layouts.{context, region};
ghost use Rattle.gfx_prog_block.specs.Reading.{context_of, region_of};

use crate::block::Block;
use crate::region::{ContextBody, Region, RegionBody, RegionHead, TILE_SIZE};
use crate::tile::Piece;
use crate::tile_reading::read_tiles;
use gfx_base::{Cause, Refusal};
use gfx_layout::{Fields, Stop};
use std::alloc::Global;

/// Reads RFX_PROGRESSIVE_CONTEXT, all but what its tile size has to be.
#[tactic(auto, unfolding(gfx_layout::specs::Reading::read_whole, gfx_layout::specs::Reading::read, gfx_base::specs::Results::and_then))]
fn read_context_body(body: &[u8]) -> Result<ContextBody, Stop>
    ensures { result ≡ read_whole context body.now }
{
    let mut fields = Fields::new(body);
    let parts = ContextBody {
        id: fields.u8()?,
        tile_size: fields.u16()?,
        flags: fields.u8()?,
    };
    fields.end()?;
    Ok(parts)
}

/// Reads the body of RFX_PROGRESSIVE_CONTEXT.
#[tactic(auto, unfolding(crate::specs::Reading::context_of, gfx_base::specs::Results::and_then))]
pub(crate) fn read_context<'a>(body: &[u8]) -> Result<Block<'a>, Stop>
    ensures { Says (λ block. block) result (context_of body.now) }
{
    let parts = read_context_body(body)?;
    if parts.tile_size != u16::from(TILE_SIZE) {
        return Err(Stop::Rule(Refusal::BlockUnknown));
    }
    Ok(Block::Context {
        id: parts.id,
        flags: parts.flags,
    })
}

/// Reads RFX_PROGRESSIVE_REGION, all but its tiles and what its tile size has to be.
#[tactic(auto, unfolding(gfx_layout::specs::Reading::read_whole, gfx_layout::specs::Reading::read, gfx_base::specs::Results::and_then))]
fn read_region_body<'a>(alloc: Global, body: &'a [u8]) -> Result<RegionBody<'a>, Cause<Stop>>
    ensures { Gives (λ parts. parts) result (read_whole region body.now) }
{
    let mut fields = Fields::new(body);
    let head: RegionHead = fields.one()?;
    let parts = RegionBody {
        head,
        rects: fields.items(alloc, usize::from(head.rects))?,
        quants: fields.items(alloc, usize::from(head.quants))?,
        levels: fields.items(alloc, usize::from(head.levels))?,
        tiles: Piece::new(fields.bytes(head.tile_bytes as usize)?),
    };
    fields.end()?;
    Ok(parts)
}

/// Reads the body of RFX_PROGRESSIVE_REGION.
#[tactic(auto, unfolding(crate::specs::Reading::region_of, gfx_base::specs::Results::and_then))]
pub(crate) fn read_region<'a>(alloc: Global, body: &'a [u8]) -> Result<Region<'a>, Cause<Stop>>
    ensures { Gives (λ region. region) result (region_of body.now) }
{
    let parts = read_region_body(alloc, body)?;
    if parts.head.tile_size != TILE_SIZE {
        return Err(Cause::Refused(Stop::Rule(Refusal::BlockUnknown)));
    }
    let tiles = read_tiles(alloc, parts.tiles.as_slice(), usize::from(parts.head.tiles))?;
    Ok(Region {
        flags: parts.head.flags,
        rects: parts.rects,
        quants: parts.quants,
        levels: parts.levels,
        tiles,
    })
}

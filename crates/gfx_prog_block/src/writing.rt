//! Writing the data of a message.

ghost use Rattle.std.specs.Prelude.{◌≡◌, ◌++◌, OnOk, OnErr};
ghost use Rattle.std.specs.List.{AllByRecursion, sum_by};
ghost use Rattle.gfx_layout.specs.Writing.{Puts};
ghost use Rattle.gfx_prog_block.specs.declared.block.Block.TheVariants as blocks;
ghost use Rattle.gfx_prog_block.specs.Fitting.{IsSpellableRegion, IsSpellable};
ghost use Rattle.gfx_prog_block.specs.Spelling.{block_text, sync_contents, spelling, region_body, region_measure, tile_size};

use crate::area::Area;
use crate::block::{Block, Blocks};
use crate::frame::put_frame;
use crate::kinds::BlockType;
use crate::quants::{PackedQuant, RegionLevel};
use crate::region::{Region, RegionHead, TILE_SIZE};
use crate::tile_writing::{put_tiles, tiles_size};
use gfx_base::{Bytes, NoMemory};
use gfx_layout::{Part, put_items};

/// What a sync block holds: its magic number 0xCACCACCA and version 1.0 ([MS-RDPEGFX] 2.2.4.2,
/// RFX_PROGRESSIVE_SYNC).
const SYNC: [u8; 6] = [0xCA, 0xAC, 0xCC, 0xCA, 0x00, 0x01];

/// How many bytes a region's body has.
#[tactic(auto, using(crate::proofs::WritingLaws::measures))]
fn region_measure(region: &Region<'_>, tiles: usize) -> usize
    requires fits { IsSpellableRegion region.now }
    requires tiles { tiles ≡ sum_by tile_size region.now.tiles }
    ensures { result ≡ region_measure region.now }
{
    RegionHead::SIZE
        + region.rects.len() * Area::SIZE
        + region.quants.len() * PackedQuant::SIZE
        + region.levels.len() * RegionLevel::SIZE
        + tiles
}

/// Puts the body of RFX_PROGRESSIVE_REGION at the end.
#[tactic(auto, unfolding(crate::specs::Spelling::region_body))]
fn put_region_body(out: &mut Bytes, region: &Region<'_>, tiles: usize) -> Result<(), NoMemory>
    requires fits { IsSpellableRegion region.now }
    requires tiles { tiles ≡ sum_by tile_size region.now.tiles }
    ensures { Puts result out.old out.new (region_body region.now) }
{
    let head = RegionHead {
        tile_size: TILE_SIZE,
        rects: region.rects.len() as u16,
        quants: region.quants.len() as u8,
        levels: region.levels.len() as u8,
        flags: region.flags,
        tiles: region.tiles.len() as u16,
        tile_bytes: tiles as u32,
    };
    head.put(out)?;
    put_items(out, region.rects.as_slice())?;
    put_items(out, region.quants.as_slice())?;
    put_items(out, region.levels.as_slice())?;
    put_tiles(out, region.tiles.as_slice())?;
    Ok(())
}

/// Puts RFX_PROGRESSIVE_REGION at the end.
#[tactic(auto, unfolding(crate::specs::Spelling::block_text))]
fn put_region(out: &mut Bytes, region: &Region<'_>) -> Result<(), NoMemory>
    requires { IsSpellableRegion region.now }
    ensures { Puts result out.old out.new (block_text sync_contents (blocks.Region region.now)) }
{
    let tiles = tiles_size(region.tiles.as_slice());
    put_frame(
        out,
        BlockType::Region.number(),
        region_measure(region, tiles),
    )?;
    put_region_body(out, region, tiles)?;
    Ok(())
}

/// Puts RFX_PROGRESSIVE_SYNC at the end.
#[tactic(auto, unfolding(crate::specs::Spelling::block_text))]
fn put_sync(out: &mut Bytes) -> Result<(), NoMemory>
    ensures { Puts result out.old out.new (block_text sync_contents blocks.Sync) }
{
    put_frame(out, BlockType::Sync.number(), SYNC.len())?;
    out.append(&SYNC)
}

/// Puts RFX_PROGRESSIVE_FRAME_BEGIN at the end.
#[tactic(auto, unfolding(crate::specs::Spelling::block_text))]
fn put_frame_begin(out: &mut Bytes, index: u32, regions: u16) -> Result<(), NoMemory>
    ensures { Puts result out.old out.new (block_text sync_contents (blocks.FrameBegin index regions)) }
{
    put_frame(out, BlockType::FrameBegin.number(), u32::SIZE + u16::SIZE)?;
    index.put(out)?;
    regions.put(out)
}

/// Puts RFX_PROGRESSIVE_FRAME_END at the end.
#[tactic(auto, unfolding(crate::specs::Spelling::block_text))]
fn put_frame_end(out: &mut Bytes) -> Result<(), NoMemory>
    ensures { Puts result out.old out.new (block_text sync_contents blocks.FrameEnd) }
{
    put_frame(out, BlockType::FrameEnd.number(), 0)
}

/// Puts RFX_PROGRESSIVE_CONTEXT at the end.
#[tactic(auto, unfolding(crate::specs::Spelling::block_text))]
fn put_context(out: &mut Bytes, id: u8, flags: u8) -> Result<(), NoMemory>
    ensures { Puts result out.old out.new (block_text sync_contents (blocks.Context id flags)) }
{
    put_frame(out, BlockType::Context.number(), 2 * u8::SIZE + u16::SIZE)?;
    id.put(out)?;
    u16::from(TILE_SIZE).put(out)?;
    flags.put(out)
}

/// Puts a block at the end.
fn put_block(out: &mut Bytes, block: &Block<'_>) -> Result<(), NoMemory>
    requires { IsSpellable block.now }
    ensures { Puts result out.old out.new (block_text sync_contents block.now) }
{
    match block {
        Block::Sync => put_sync(out),
        Block::FrameBegin { index, regions } => put_frame_begin(out, *index, *regions),
        Block::FrameEnd => put_frame_end(out),
        Block::Context { id, flags } => put_context(out, *id, *flags),
        Block::Region(region) => put_region(out, region),
    }
}

/// Puts blocks at the end, one after the other.
#[tactic(auto, unfolding(crate::specs::Spelling::spelling))]
fn put_blocks(out: &mut Bytes, blocks: &[Block<'_>]) -> Result<(), NoMemory>
    requires { AllByRecursion IsSpellable blocks.now }
    ensures { Puts result out.old out.new (spelling blocks.now) }
{
    'blocks: for block in blocks {
        put_block(out, block)?;
    }
    Ok(())
}

/// Puts the one spelling of blocks at the end. Counts and lengths must fit their fields.
pub fn write_blocks(blocks: &Blocks<'_>, out: &mut Bytes) -> Result<(), NoMemory>
    requires { AllByRecursion IsSpellable blocks.now }
    ensures ok { OnOk result (out.new ≡ out.old ++ spelling blocks.now) }
    ensures err { OnErr result (out.new ≡ out.old) }
{
    let start = out.len();
    if put_blocks(out, blocks.as_slice()).is_err() {
        out.truncate(start);
        return Err(NoMemory);
    }
    Ok(())
}

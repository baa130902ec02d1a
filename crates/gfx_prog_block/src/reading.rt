//! Reading the data of a message.

ghost use Rattle.std.specs.Prelude.{length, IfOk};
ghost use Rattle.std.specs.List.{AllByRecursion};
ghost use Rattle.gfx_base.specs.Outcome.{Gives, Says, WantsOnlyIf};
ghost use Rattle.gfx_layout.specs.Reading.{read_whole};
ghost use Rattle.gfx_prog_block.specs.Layouts.{sync, frame_begin, frame_end};
ghost use Rattle.gfx_prog_block.specs.Reading.{block_of, block_at, begins_block, blocks_within, blocks_of};
ghost use Rattle.gfx_prog_block.specs.Fitting.{Fits};
ghost use Rattle.gfx_prog_block.specs.Spelling.{Spells};

use crate::block::{Block, Blocks};
use crate::frame::read_frame;
use crate::kinds::BlockType;
use crate::region_reading::{read_context, read_region};
use gfx_base::{Cause, Fault, Refusal};
use gfx_layout::{Fields, Stop};
use std::alloc::Global;

/// Reads the body of RFX_PROGRESSIVE_SYNC: six bytes that aren't looked at.
#[tactic(auto, unfolding(gfx_layout::specs::Reading::read_whole, gfx_layout::specs::Reading::read, gfx_base::specs::Results::and_then))]
fn read_sync<'a>(body: &[u8]) -> Result<Block<'a>, Stop>
    ensures { Says (λ block. block) result (read_whole sync body.now) }
{
    let mut fields = Fields::new(body);
    fields.bytes(6)?;
    fields.end()?;
    Ok(Block::Sync)
}

/// Reads the body of RFX_PROGRESSIVE_FRAME_BEGIN.
#[tactic(auto, unfolding(gfx_layout::specs::Reading::read_whole, gfx_layout::specs::Reading::read, gfx_base::specs::Results::and_then))]
fn read_frame_begin<'a>(body: &[u8]) -> Result<Block<'a>, Stop>
    ensures { Says (λ block. block) result (read_whole frame_begin body.now) }
{
    let mut fields = Fields::new(body);
    let index = fields.u32()?;
    let regions = fields.u16()?;
    fields.end()?;
    Ok(Block::FrameBegin { index, regions })
}

/// Reads the body of RFX_PROGRESSIVE_FRAME_END, which has no bytes.
#[tactic(auto, unfolding(gfx_layout::specs::Reading::read_whole, gfx_layout::specs::Reading::read, gfx_base::specs::Results::and_then))]
fn read_frame_end<'a>(body: &[u8]) -> Result<Block<'a>, Stop>
    ensures { Says (λ block. block) result (read_whole frame_end body.now) }
{
    let fields = Fields::new(body);
    fields.end()?;
    Ok(Block::FrameEnd)
}

/// Reads the body of a block of this type.
#[tactic(auto, unfolding(crate::specs::Reading::block_of, gfx_base::specs::Results::and_then))]
fn read_body<'a>(alloc: Global, kind: BlockType, body: &'a [u8]) -> Result<Block<'a>, Cause<Stop>>
    ensures { Gives (λ block. block) result (block_of kind body.now) }
{
    match kind {
        BlockType::Sync => Ok(read_sync(body)?),
        BlockType::FrameBegin => Ok(read_frame_begin(body)?),
        BlockType::FrameEnd => Ok(read_frame_end(body)?),
        BlockType::Context => Ok(read_context(body)?),
        BlockType::Region => Ok(Block::Region(read_region(alloc, body)?)),
    }
}

/// Reads the next block.
#[tactic(auto, unfolding(crate::specs::Reading::block_at, crate::specs::Reading::begins_block, crate::specs::Reading::kind_at, gfx_base::specs::Results::and_then))]
fn read_block<'a>(alloc: Global, fields: &mut Fields<'a>) -> Result<Block<'a>, Cause<Stop>>
    ensures value { Gives (λ block. (block, fields.new)) result (block_at fields.old) }
    ensures memory { WantsOnlyIf result (begins_block fields.old) }
{
    let frame = read_frame(fields)?;
    let Some(kind) = BlockType::from_number(frame.kind) else {
        return Err(Cause::Refused(Stop::Rule(Refusal::BlockUnknown)));
    };
    read_body(alloc, kind, frame.body.as_slice())
}

/// Reads blocks to the end of the bytes.
#[tactic(auto, using(crate::proofs::BlockLoops::block_loops))]
fn read_all<'a>(alloc: Global, bytes: &'a [u8]) -> Result<Blocks<'a>, Cause<Stop>>
    ensures value { Gives (λ blocks. blocks) result (blocks_within (length bytes.now) bytes.now) }
    ensures memory { WantsOnlyIf result (begins_block bytes.now) }
{
    let mut blocks = Blocks::new(alloc);
    let mut fields = Fields::new(bytes);
    'blocks: while !fields.is_empty() {
        let block = read_block(alloc, &mut fields)?;
        blocks.push(block)?;
    }
    Ok(blocks)
}

/// Reads bytes that are blocks, as `read_blocks` does.
#[tactic(auto, unfolding(crate::specs::Reading::blocks_of))]
fn read_data<'a>(alloc: Global, bytes: &'a [u8]) -> Result<Blocks<'a>, Fault>
    ensures value { Gives (λ blocks. blocks) result (blocks_of bytes.now) }
    ensures memory { WantsOnlyIf result (begins_block bytes.now) }
{
    match read_all(alloc, bytes) {
        Ok(blocks) => Ok(blocks),
        Err(Cause::Refused(Stop::Rule(refusal))) => Err(Fault::Refused(refusal)),
        Err(Cause::Refused(_)) => Err(Fault::Refused(Refusal::BlockLength)),
        Err(Cause::Memory) => Err(Fault::Memory),
    }
}

/// Reads bytes that are blocks, one after the other to their end. The codes of tiles stay where they
/// are, and the blocks borrow them.
///
/// Refusals are BlockLength, BlockUnknown and TileCount, by the first of the checks of `specs/Reading`
/// that fails. Memory is wanted only where the first block's frame and type are accepted.
pub fn read_blocks<'a>(alloc: Global, bytes: &'a [u8]) -> Result<Blocks<'a>, Fault>
    ensures value { Gives (λ blocks. blocks) result (blocks_of bytes.now) }
    ensures memory { WantsOnlyIf result (begins_block bytes.now) }
    // What is read is spelled so, byte for byte but for what sync blocks hold, and all of it fits its field.
    ensures spelled { IfOk result (λ blocks. Spells bytes.now blocks × AllByRecursion Fits blocks) }
{
    read_data(alloc, bytes)
}

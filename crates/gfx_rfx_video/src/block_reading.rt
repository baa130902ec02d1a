//! Reading the blocks of a message's data.

ghost use Rattle.std.specs.Prelude.{length};
ghost use Rattle.gfx_base.specs.Outcome.{Gives, WantsOnlyIf};
ghost use Rattle.gfx_rfx_video.specs.BlockReading.{block_of, block_at, begins_block, blocks_within, video_blocks_of};

use crate::block::{VideoBlock, VideoBlocks};
use crate::frame::read_frame;
use crate::header_reading::{
    read_channels, read_context, read_frame_begin, read_frame_end, read_sync, read_versions,
};
use crate::kinds::BlockType;
use crate::set_reading::{read_region, read_set};
use gfx_base::{Cause, Fault, Refusal};
use gfx_layout::{Fields, Stop};
use std::alloc::Global;

/// Reads the body of a block of this type.
#[tactic(auto, unfolding(crate::specs::BlockReading::block_of, gfx_base::specs::Results::and_then))]
fn read_body<'a>(
    alloc: Global,
    kind: BlockType,
    body: &'a [u8],
) -> Result<VideoBlock<'a>, Cause<Stop>>
    ensures { Gives (λ block. block) result (block_of kind body.now) }
{
    match kind {
        BlockType::Sync => Ok(read_sync(body)?),
        BlockType::Versions => Ok(read_versions(body)?),
        BlockType::Channels => Ok(read_channels(body)?),
        BlockType::Context => Ok(read_context(body)?),
        BlockType::FrameBegin => Ok(read_frame_begin(body)?),
        BlockType::FrameEnd => Ok(read_frame_end(body)?),
        BlockType::Region => read_region(alloc, body),
        BlockType::TileSet => Ok(VideoBlock::TileSet(read_set(alloc, body)?)),
    }
}

/// Reads the next block.
#[tactic(auto, unfolding(crate::specs::BlockReading::block_at, crate::specs::BlockReading::begins_block, crate::specs::BlockReading::kind_at, gfx_base::specs::Results::and_then))]
fn read_block<'a>(alloc: Global, fields: &mut Fields<'a>) -> Result<VideoBlock<'a>, Cause<Stop>>
    ensures value { Gives (λ block. (block, fields.new)) result (block_at fields.old) }
    ensures memory { WantsOnlyIf result (begins_block fields.old) }
{
    let frame = read_frame(fields)?;
    let Some(kind) = BlockType::from_number(frame.kind) else {
        return Err(Cause::Refused(Stop::Rule(Refusal::BlockUnknown)));
    };
    read_body(alloc, kind, frame.body.as_slice())
}

/// Reads blocks to the end of the bytes.
#[tactic(auto, using(crate::proofs::BlockLoops::block_loops))]
fn read_all<'a>(alloc: Global, bytes: &'a [u8]) -> Result<VideoBlocks<'a>, Cause<Stop>>
    ensures value { Gives (λ blocks. blocks) result (blocks_within (length bytes.now) bytes.now) }
    ensures memory { WantsOnlyIf result (begins_block bytes.now) }
{
    let mut blocks = VideoBlocks::new(alloc);
    let mut fields = Fields::new(bytes);
    'blocks: while !fields.is_empty() {
        let block = read_block(alloc, &mut fields)?;
        blocks.push(block)?;
    }
    Ok(blocks)
}

/// Reads bytes that are blocks, one after the other to their end. The codes of tiles stay where they
/// are, and the blocks borrow them.
///
/// Refusals are BlockLength, BlockUnknown and TileCount, by the first of the checks of
/// `specs/BlockReading` that fails. Memory is wanted only where the first block's frame and type are
/// accepted.
#[tactic(auto, unfolding(crate::specs::BlockReading::video_blocks_of))]
pub fn read_video_blocks<'a>(alloc: Global, bytes: &'a [u8]) -> Result<VideoBlocks<'a>, Fault>
    ensures value { Gives (λ blocks. blocks) result (video_blocks_of bytes.now) }
    ensures memory { WantsOnlyIf result (begins_block bytes.now) }
{
    match read_all(alloc, bytes) {
        Ok(blocks) => Ok(blocks),
        Err(Cause::Refused(Stop::Rule(refusal))) => Err(Fault::Refused(refusal)),
        Err(Cause::Refused(_)) => Err(Fault::Refused(Refusal::BlockLength)),
        Err(Cause::Memory) => Err(Fault::Memory),
    }
}

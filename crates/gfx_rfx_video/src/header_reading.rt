//! Headers, read from their bodies: their lengths are checked, and what they hold isn't looked at.

ghost use Rattle.gfx_base.specs.Outcome.{Says};
ghost use Rattle.gfx_layout.specs.Reading.{read_whole};
ghost use Rattle.gfx_rfx_video.specs.Layouts.{sync, versions, channels, context, frame_begin, frame_end};

use crate::block::VideoBlock;
use gfx_layout::{Fields, Stop};

/// How many bytes stand for a channel (TS_RFX_CHANNELT).
const CHANNEL: usize = 5;

/// Reads the body of TS_RFX_SYNC.
#[tactic(auto, unfolding(gfx_layout::specs::Reading::read_whole, gfx_layout::specs::Reading::read, gfx_base::specs::Results::and_then))]
pub(crate) fn read_sync<'a>(body: &[u8]) -> Result<VideoBlock<'a>, Stop>
    ensures { Says (λ block. block) result (read_whole sync body.now) }
{
    let mut fields = Fields::new(body);
    fields.bytes(6)?;
    fields.end()?;
    Ok(VideoBlock::Sync)
}

/// Reads the body of TS_RFX_CODEC_VERSIONS.
#[tactic(auto, unfolding(gfx_layout::specs::Reading::read_whole, gfx_layout::specs::Reading::read, gfx_base::specs::Results::and_then))]
pub(crate) fn read_versions<'a>(body: &[u8]) -> Result<VideoBlock<'a>, Stop>
    ensures { Says (λ block. block) result (read_whole versions body.now) }
{
    let mut fields = Fields::new(body);
    fields.bytes(4)?;
    fields.end()?;
    Ok(VideoBlock::Versions)
}

/// Reads the body of TS_RFX_CHANNELS: as many channels as it says.
#[tactic(auto, unfolding(gfx_layout::specs::Reading::read_whole, gfx_layout::specs::Reading::read, gfx_base::specs::Results::and_then))]
pub(crate) fn read_channels<'a>(body: &[u8]) -> Result<VideoBlock<'a>, Stop>
    ensures { Says (λ block. block) result (read_whole channels body.now) }
{
    let mut fields = Fields::new(body);
    let count = fields.u8()?;
    fields.bytes(usize::from(count) * CHANNEL)?;
    fields.end()?;
    Ok(VideoBlock::Channels)
}

/// Reads the body of TS_RFX_CONTEXT.
#[tactic(auto, unfolding(gfx_layout::specs::Reading::read_whole, gfx_layout::specs::Reading::read, gfx_base::specs::Results::and_then))]
pub(crate) fn read_context<'a>(body: &[u8]) -> Result<VideoBlock<'a>, Stop>
    ensures { Says (λ block. block) result (read_whole context body.now) }
{
    let mut fields = Fields::new(body);
    fields.bytes(7)?;
    fields.end()?;
    Ok(VideoBlock::Context)
}

/// Reads the body of TS_RFX_FRAME_BEGIN.
#[tactic(auto, unfolding(gfx_layout::specs::Reading::read_whole, gfx_layout::specs::Reading::read, gfx_base::specs::Results::and_then))]
pub(crate) fn read_frame_begin<'a>(body: &[u8]) -> Result<VideoBlock<'a>, Stop>
    ensures { Says (λ block. block) result (read_whole frame_begin body.now) }
{
    let mut fields = Fields::new(body);
    fields.bytes(8)?;
    fields.end()?;
    Ok(VideoBlock::FrameBegin)
}

/// Reads the body of TS_RFX_FRAME_END.
#[tactic(auto, unfolding(gfx_layout::specs::Reading::read_whole, gfx_layout::specs::Reading::read, gfx_base::specs::Results::and_then))]
pub(crate) fn read_frame_end<'a>(body: &[u8]) -> Result<VideoBlock<'a>, Stop>
    ensures { Says (λ block. block) result (read_whole frame_end body.now) }
{
    let mut fields = Fields::new(body);
    fields.bytes(2)?;
    fields.end()?;
    Ok(VideoBlock::FrameEnd)
}

ghost use Rattle.std.specs.Prelude.{◌≡◌, ◌++◌, ◌∷◌, ◌==◌, [], length, OnOk, OnErr};
ghost use Rattle.std.specs.List.{slice_get};
ghost use Rattle.std.specs.Option.{option_copied};

use crate::set::TileSet;
use gfx_base::NoMemory;
use gfx_prog_block::Areas;
use std::alloc::Global;
use std::marker::Model;

/// A block of a message's data ([MS-RDPRFX] 2.2.2). What headers hold is not looked at.
#[derive(Debug, Drop)]
pub enum VideoBlock<'a> {
    /// TS_RFX_SYNC.
    Sync,
    /// TS_RFX_CODEC_VERSIONS.
    Versions,
    /// TS_RFX_CHANNELS.
    Channels,
    /// TS_RFX_CONTEXT.
    Context,
    /// TS_RFX_FRAME_BEGIN.
    FrameBegin,
    /// TS_RFX_FRAME_END.
    FrameEnd,
    /// TS_RFX_REGION: the rectangles that the tile sets behind it may paint, up to the next region.
    Region(Areas),
    /// TS_RFX_TILESET.
    TileSet(TileSet<'a>),
}

/// Blocks, in the order of the data. Contracts see the list.
#[derive(Debug, Drop)]
pub struct VideoBlocks<'a> {
    blocks: Vec<VideoBlock<'a>>,
}

impl<'a> Model for VideoBlocks<'a> {
    ghost use Rattle.std.specs.Prelude.{List};
    ghost use Rattle.gfx_rfx_video.specs.declared.block.VideoBlock.{VideoBlock};

    ghost Value = { List VideoBlock };

    ghost view = { λ b. b.blocks.items };
}

impl<'a> VideoBlocks<'a> {
    /// No blocks. It takes no memory.
    pub fn new(alloc: Global) -> VideoBlocks<'a>
        ensures { result ≡ [] }
    {
        VideoBlocks {
            blocks: Vec::new(alloc),
        }
    }

    /// Puts a block at the end.
    pub fn push(&mut self, block: VideoBlock<'a>) -> Result<(), NoMemory>
        ensures ok { OnOk result (self.new ≡ self.old ++ block.entry ∷ []) }
        ensures err { OnErr result (self.new ≡ self.old) }
    {
        self.blocks.push(block)?;
        Ok(())
    }

    pub fn len(&self) -> usize
        ensures { result ≡ length self.now }
    {
        self.blocks.len()
    }

    pub fn is_empty(&self) -> bool
        ensures { result ≡ (length self.now == 0) }
    {
        self.blocks.is_empty()
    }

    /// The block at a place, counted from 0, if there is one.
    pub fn get(&self, at: usize) -> Option<&VideoBlock<'a>>
        ensures { option_copied result ≡ slice_get self.now at }
    {
        self.blocks.get(at)
    }

    pub fn as_slice(&self) -> &[VideoBlock<'a>]
        ensures { result.now ≡ self.now }
    {
        self.blocks.as_slice()
    }
}

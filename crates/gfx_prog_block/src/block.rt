ghost use Rattle.std.specs.Prelude.{◌≡◌, ◌++◌, ◌∷◌, ◌==◌, [], length, OnOk, OnErr};
ghost use Rattle.std.specs.List.{slice_get};
ghost use Rattle.std.specs.Option.{option_copied};
ghost use Rattle.gfx_prog_block.specs.Spelling.{block_type};

use crate::kinds::BlockType;
use crate::region::Region;
use gfx_base::NoMemory;
use std::alloc::Global;
use std::marker::Model;

/// A block of a message's data ([MS-RDPEGFX] 2.2.4.2).
#[derive(Debug, Drop)]
pub enum Block<'a> {
    /// RFX_PROGRESSIVE_SYNC. What it holds is not looked at.
    Sync,
    /// RFX_PROGRESSIVE_FRAME_BEGIN. How many regions it announces is not checked.
    FrameBegin { index: u32, regions: u16 },
    /// RFX_PROGRESSIVE_FRAME_END.
    FrameEnd,
    /// RFX_PROGRESSIVE_CONTEXT.
    Context { id: u8, flags: u8 },
    /// RFX_PROGRESSIVE_REGION.
    Region(Region<'a>),
}

impl<'a> Block<'a> {
    /// Which kind of block it is.
    pub fn kind(&self) -> BlockType
        ensures { result ≡ block_type self.now }
    {
        match self {
            Block::Sync => BlockType::Sync,
            Block::FrameBegin { .. } => BlockType::FrameBegin,
            Block::FrameEnd => BlockType::FrameEnd,
            Block::Context { .. } => BlockType::Context,
            Block::Region(_) => BlockType::Region,
        }
    }
}

/// Blocks, in the order of the data. Contracts see the list.
#[derive(Debug, Drop)]
pub struct Blocks<'a> {
    blocks: Vec<Block<'a>>,
}

impl<'a> Model for Blocks<'a> {
    ghost use Rattle.std.specs.Prelude.{List};
    ghost use Rattle.gfx_prog_block.specs.declared.block.Block.{Block};

    ghost Value = { List Block };

    ghost view = { λ b. b.blocks.items };
}

impl<'a> Blocks<'a> {
    /// No blocks. It takes no memory.
    pub fn new(alloc: Global) -> Blocks<'a>
        ensures { result ≡ [] }
    {
        Blocks {
            blocks: Vec::new(alloc),
        }
    }

    /// Puts a block at the end.
    pub fn push(&mut self, block: Block<'a>) -> Result<(), NoMemory>
        ensures ok { OnOk result (self.new ≡ self.old ++ block.entry ∷ []) }
        ensures err { OnErr result (self.new ≡ self.old) }
    {
        self.blocks.push(block)?;
        Ok(())
    }

    pub fn len(&self) -> usize
        ensures { result ≡ length self.now }
    {
        self.blocks.len()
    }

    pub fn is_empty(&self) -> bool
        ensures { result ≡ (length self.now == 0) }
    {
        self.blocks.is_empty()
    }

    /// The block at a place, counted from 0, if there is one.
    pub fn get(&self, at: usize) -> Option<&Block<'a>>
        ensures { option_copied result ≡ slice_get self.now at }
    {
        self.blocks.get(at)
    }

    pub fn as_slice(&self) -> &[Block<'a>]
        ensures { result.now ≡ self.now }
    {
        self.blocks.as_slice()
    }
}
